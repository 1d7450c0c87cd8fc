//! In which kind the arguments of a constraint are read.

ghost use Rattle.std.specs.Prelude.{◌≡◌, All, take, drop};
ghost use Rattle.model_core.specs.Lawful.{IsLawfulArgument};
ghost use Rattle.script_lang.specs.Compared.{compared, IsFirstKind, kind_at};

use domain_core::kind::Kind;
use model_core::decision::ConArg;
use model_core::model::Model;
use model_core::variable::ValueKind;

// At most so many arguments from the place on.
fn from_place(arguments: &[ConArg], place: usize, count: usize) -> &[ConArg]
    ensures { result.now ≡ take count (drop place arguments.now) }
{
    let (_, behind) = arguments.split_at(place.min(arguments.len()));
    let (front, _) = behind.split_at(count.min(behind.len()));
    front
}

// The kind of the first variable among the arguments.
fn first_kind(model: &Model, arguments: &[ConArg]) -> Option<ValueKind>
    requires { All (IsLawfulArgument model.now) arguments.now }
    ensures { IsFirstKind model.now arguments.now result }
{
    for argument in arguments {
        if let ConArg::Var(name) = argument {
            return Some(model.kind_of(name));
        }
    }
    None
}

/// The kind of the first variable among those arguments that the constraint compares.
pub fn kind_among(model: &Model, kind: Kind, arguments: &[ConArg]) -> Option<ValueKind>
    requires { All (IsLawfulArgument model.now) arguments.now }
    ensures { IsFirstKind model.now (compared kind arguments.now) result }
{
    match kind {
        Kind::MulEq => match first_kind(model, from_place(arguments, 0, 1)) {
            Some(found) => Some(found),
            None => first_kind(model, from_place(arguments, 2, 1)),
        },
        Kind::TestEq | Kind::TestLeq => first_kind(model, from_place(arguments, 1, 2)),
        Kind::Eq | Kind::Neq | Kind::Lt | Kind::Leq => first_kind(model, arguments),
        Kind::AddEq | Kind::AllDiff | Kind::Field(_) => first_kind(model, arguments),
    }
}

/// The kind in which the argument at this place is read, where those that are compared are of this kind.
pub fn kind_at(kind: Kind, among: Option<ValueKind>, place: usize) -> Option<ValueKind>
    ensures { result ≡ kind_at kind among place }
{
    match kind {
        Kind::MulEq => {
            if place == 1 {
                Some(ValueKind::Int)
            } else {
                among
            }
        }
        Kind::TestEq | Kind::TestLeq => {
            if place == 0 {
                Some(ValueKind::Bool)
            } else {
                among
            }
        }
        Kind::Eq | Kind::Neq | Kind::Lt | Kind::Leq => among,
        Kind::AddEq | Kind::AllDiff | Kind::Field(_) => among,
    }
}
