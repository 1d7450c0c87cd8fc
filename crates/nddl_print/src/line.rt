//! The text that is being printed, word by word.

ghost use Rattle.std.specs.Prelude.{◌≡◌, ◌++◌, ◌∷◌, ◌+◌, ◌<◌, ◌≢◌, [], ℕ, List, codes, OnOk};
ghost use Rattle.nddl_print.specs.Words.{Word, Fixed, Named, Number, Decimal, Quoted, fixed_text, size_text, line_of, spaced};

use eu_name::bytes::Bytes;
use itoa::Buffer;
use nddl_ast::name::Name;
use nddl_grammar::sort::Sort;
use std::alloc::{AllocError, Global};
use std::marker::Model;

/// Lines that are ended, and behind them words with a space behind each.
#[derive(Drop)]
pub struct Lines {
    bytes: Vec<u8>,
}

impl Model for Lines {
    ghost use Rattle.std.specs.Prelude.{List, ℕ};

    ghost Value = { List ℕ };

    ghost view = { λ inside. inside.bytes.items };
}

// How a reserved word or a mark is spelled.
fn fixed_text(sort: Sort) -> &'static [u8]
    ensures { result.now ≡ fixed_text sort }
{
    match sort {
        Sort::Name | Sort::Number | Sort::Decimal | Sort::Quoted => b"",
        Sort::Word(word) => word.word(),
        Sort::Include => b"#include",
        Sort::BraceOpen => b"{",
        Sort::BraceClose => b"}",
        Sort::ParenOpen => b"(",
        Sort::ParenClose => b")",
        Sort::BracketOpen => b"[",
        Sort::BracketClose => b"]",
        Sort::Semicolon => b";",
        Sort::Comma => b",",
        Sort::Point => b".",
        Sort::Assign => b"=",
        Sort::Equal => b"==",
        Sort::NotEqual => b"!=",
        Sort::DoubleColon => b"::",
    }
}

impl Lines {
    pub fn new(alloc: Global) -> Lines
        ensures { result ≡ [] }
    {
        Lines {
            bytes: Vec::new(alloc),
        }
    }

    pub fn into_bytes(self) -> Bytes
        ensures { result ≡ self }
    {
        let Lines { bytes } = self;
        Bytes::from_vec(bytes)
    }

    fn append(&mut self, bytes: &[u8]) -> Result<(), AllocError>
        ensures { OnOk result (self.new ≡ self.old ++ bytes.now) }
    {
        self.bytes.extend_from_slice(bytes)
    }

    // The bytes, and a space.
    fn word(&mut self, bytes: &[u8]) -> Result<(), AllocError>
        ensures { OnOk result (self.new ≡ self.old ++ (bytes.now ++ codes " ")) }
    {
        self.append(bytes)?;
        self.append(b" ")
    }

    /// A reserved word or a mark.
    pub fn fixed(&mut self, sort: Sort) -> Result<(), AllocError>
        ensures { OnOk result (self.new ≡ self.old ++ spaced (Fixed sort ∷ [])) }
    {
        self.word(fixed_text(sort))
    }

    pub fn name(&mut self, name: &Name) -> Result<(), AllocError>
        ensures { OnOk result (self.new ≡ self.old ++ spaced (Named name.now.text ∷ [])) }
    {
        self.word(name.text.as_bytes())
    }

    pub fn number(&mut self, value: i32) -> Result<(), AllocError>
        ensures { OnOk result (self.new ≡ self.old ++ spaced (Number value ∷ [])) }
    {
        let mut buffer = Buffer::new();
        self.word(buffer.format(value).as_bytes())
    }

    // So many thousandths.
    fn size(&mut self, size: u32) -> Result<(), AllocError>
        ensures { OnOk result (self.new ≡ self.old ++ (size_text size ++ codes " ")) }
    {
        let mut buffer = Buffer::new();
        self.append(buffer.format(size / 1000).as_bytes())?;
        let below = size % 1000;
        let digits = [
            b'.',
            digit(below / 100),
            digit(below / 10 % 10),
            digit(below % 10),
        ];
        self.word(&digits)
    }

    /// A decimal by its thousandths, with a sign where it is less than 0.
    pub fn decimal(&mut self, thousandths: i32) -> Result<(), AllocError>
        ensures { OnOk result (self.new ≡ self.old ++ spaced (Decimal thousandths ∷ [])) }
    {
        let size = thousandths.unsigned_abs();
        if thousandths < 0 {
            self.append(b"-")?;
            self.size(size)
        } else {
            self.size(size)
        }
    }

    /// Bytes between quotes.
    pub fn quoted(&mut self, inside: &[u8]) -> Result<(), AllocError>
        ensures { OnOk result (self.new ≡ self.old ++ spaced (Quoted inside.now ∷ [])) }
    {
        self.append(b"\"")?;
        self.append(inside)?;
        self.word(b"\"")
    }

    /// A line feed in place of the last space.
    pub fn end_line(&mut self) -> Result<(), AllocError>
        ensures { OnOk result ((before : List ℕ) (words : List Word) → words ≢ []
            → self.old ≡ before ++ spaced words → self.new ≡ before ++ line_of words) }
    {
        self.bytes.pop();
        self.bytes.push(b'\n')?;
        Ok(())
    }
}

// The digit of a number below 10.
fn digit(n: u32) -> u8
    requires { n < 10 }
    ensures { result ≡ 48 + n }
{
    b'0' + n as u8
}
