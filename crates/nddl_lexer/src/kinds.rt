//! Lexemes, and what can be wrong with a text.

ghost use Rattle.std.specs.Prelude.{◌≡◌, ◌+◌, ◌≤◌, length};
ghost use Rattle.nddl_lexer.specs.Faults.{lex_kind, lex_place};

use nddl_ast::kind::TextKind;

/// What a lexeme is.
#[derive(Clone, Copy, Debug, PartialEq, Eq)]
pub enum LexKind {
    /// Letters, digits and `_`, reserved words too; `inf` is none.
    Word,
    /// A whole number or an infinity, with its sign.
    Number,
    /// A number with a point in it, with its sign.
    Decimal,
    /// Bytes between quotes, with the quotes.
    Str,
    /// `#include`
    Include,
    /// `{`
    BraceOpen,
    /// `}`
    BraceClose,
    /// `(`
    ParenOpen,
    /// `)`
    ParenClose,
    /// `[`
    BracketOpen,
    /// `]`
    BracketClose,
    /// `;`
    Semicolon,
    /// `,`
    Comma,
    /// `.`
    Point,
    /// `=`
    Assign,
    /// `==`
    Equal,
    /// `!=`
    NotEqual,
    /// `::`
    DoubleColon,
}

/// A piece of a text that means something: what it is, at which byte it begins, and how many bytes it has.
#[derive(Clone, Copy, Debug, PartialEq, Eq)]
pub struct Lexeme {
    pub kind: LexKind,
    pub at: u32,
    pub len: u32,
}

/// What is wrong with a text first, and at which byte.
#[derive(Clone, Copy, Debug, PartialEq, Eq)]
pub enum LexFault {
    /// No lexeme, blank or comment begins at this byte.
    BadByte(u32),
    /// The comment that is opened here is never closed.
    OpenComment(u32),
    /// The number here is too small or too large, or the decimal here has more than three digits after the point.
    OutOfRange(u32),
    /// There is no memory for the lexemes.
    Memory,
}

impl Lexeme {
    ghost use Rattle.nddl_lexer.specs.Reading.{bytes_of};

    /// The bytes of the text that the lexeme is.
    pub fn bytes<'a>(&self, text: &'a [u8]) -> &'a [u8]
        requires { self.now.at + self.now.len ≤ length text.now }
        ensures { result.now ≡ bytes_of text.now self.now }
    {
        let start = self.at as usize;
        &text[start..start + self.len as usize]
    }
}

impl LexFault {
    /// What kind of fault it is; none where there is no memory.
    pub fn kind(self) -> Option<TextKind>
        ensures { result ≡ lex_kind self }
    {
        match self {
            LexFault::BadByte(_) => Some(TextKind::BadByte),
            LexFault::OpenComment(_) => Some(TextKind::OpenComment),
            LexFault::OutOfRange(_) => Some(TextKind::OutOfRange),
            LexFault::Memory => None,
        }
    }

    /// The byte at which it is; none where there is no memory.
    pub fn at(self) -> Option<u32>
        ensures { result ≡ lex_place self }
    {
        match self {
            LexFault::BadByte(at) | LexFault::OpenComment(at) | LexFault::OutOfRange(at) => Some(
                at,
            ),
            LexFault::Memory => None,
        }
    }
}
