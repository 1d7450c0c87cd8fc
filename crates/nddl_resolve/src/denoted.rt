//! What paths mean.

ghost use Rattle.std.specs.Prelude.{◌≡◌};
ghost use Rattle.nddl_resolve.specs.Following.{object_alone, or_faulty};

use super::seen::SeenNames;
use eu_name::text::Text;
use nddl_ast::TextKind;
use nddl_symbols::Meaning;
use nddl_typeexpr::TypeKind;

/// A predicate of a class.
#[derive(Clone, Copy)]
pub enum Predicate {
    /// One of a built-in class, whose one parameter is a quantity.
    BuiltIn,
    /// That which the class of this number declares as its member of this place.
    Declared { entry: usize, member: usize },
}

/// Of what a token is.
#[derive(Clone, Copy)]
pub struct TokenSort {
    /// The declared class of its object.
    pub class: Meaning,
    pub predicate: Predicate,
}

/// What a path means.
#[derive(Clone, Copy)]
pub enum Denoted {
    /// A value of this kind. A member, an object and a field of a known object are constants.
    Value { kind: TypeKind, constant: bool },
    Token(TokenSort),
    /// A class, by what its name means in the scope.
    Class(Meaning),
    /// What hangs on something faulty, so that nothing is said of it.
    Faulty,
}

/// What is wrong with a path, at a byte of its declaration.
#[derive(Clone, Copy)]
pub struct PathFault {
    pub kind: TextKind,
    pub at: u32,
}

/// A name with what it means. Contracts see names as lists of these.
#[derive(Drop)]
pub struct Seen {
    pub name: Text,
    pub denoted: Denoted,
}

/// What names mean where a path stands, beside those of the files. Of each sort the innermost come last.
#[derive(Clone, Copy)]
pub struct Around<'a> {
    /// The formals of a constructor, where there may be any.
    pub formals: Option<&'a SeenNames>,
    /// The variables of `foreach`, where there may be any.
    pub turns: Option<&'a SeenNames>,
    pub locals: Option<&'a SeenNames>,
    /// The labels of slots.
    pub labels: Option<&'a SeenNames>,
    /// The token whose rule it is.
    pub token: Option<TokenSort>,
}

impl Denoted {
    /// Itself if it is an object, and faulty otherwise.
    pub fn object_alone(self) -> Denoted
        ensures { result ≡ object_alone self }
    {
        match self {
            Denoted::Value {
                kind: TypeKind::Object(_),
                ..
            } => self,
            _ => Denoted::Faulty,
        }
    }
}

/// What a path means for others, who say nothing of its faults.
pub fn or_faulty(found: Result<Denoted, PathFault>) -> Denoted
    ensures { result ≡ or_faulty found }
{
    match found {
        Ok(denoted) => denoted,
        Err(_) => Denoted::Faulty,
    }
}
