//! The sorts of symbols that the grammar tells apart.

ghost use Rattle.std.specs.Prelude.{◌≡◌, ◌↔◌, IsTrue};
ghost use Rattle.nddl_grammar.specs.Sorts.{same};

use eu_name::word::Reserved;

/// What a symbol is: a name, a reserved word, a written value, `#include`, or a mark.
#[derive(Clone, Copy, Debug, PartialEq, Eq)]
pub enum Sort {
    /// A word that isn't reserved.
    Name,
    /// A reserved word.
    Word(Reserved),
    /// A whole number.
    Number,
    /// A number with a point in it.
    Decimal,
    /// Bytes between quotes.
    Quoted,
    /// `#include`
    Include,
    /// `{`
    BraceOpen,
    /// `}`
    BraceClose,
    /// `(`
    ParenOpen,
    /// `)`
    ParenClose,
    /// `[`
    BracketOpen,
    /// `]`
    BracketClose,
    /// `;`
    Semicolon,
    /// `,`
    Comma,
    /// `.`
    Point,
    /// `=`
    Assign,
    /// `==`
    Equal,
    /// `!=`
    NotEqual,
    /// `::`
    DoubleColon,
}

impl Sort {
    /// Whether the two are one.
    pub fn is(self, other: Sort) -> bool
        ensures { result ≡ same self other }
    {
        self.equals(other)
    }

    fn equals(self, other: Sort) -> bool
        ensures { IsTrue result ↔ (self ≡ other) }
    {
        self == other
    }
}
