//! Symbols of a text.

ghost use Rattle.std.specs.Prelude.{◌≡◌, IfOk};
ghost use Rattle.std.specs.Str.{IsUtf8};
ghost use Rattle.nddl_grammar.specs.declared.sort.Sort.TheVariants.{Name};

use super::sort::Sort;
use eu_name::bytes::Bytes;
use eu_name::text::Text;
use std::alloc::{AllocError, Global};
use std::marker::Model;

/// A symbol of a text. The bytes of a name are text.
#[derive(Drop)]
pub struct Symbol<'a> {
    sort: Sort,
    bytes: &'a [u8],
    value: i32,
    at: u32,
}

impl<'a> Model for Symbol<'a> {
    ghost use Rattle.std.specs.Prelude.{◌≡◌};
    ghost use Rattle.std.specs.Str.{IsUtf8};
    ghost use Rattle.nddl_grammar.specs.declared.sort.Sort.TheVariants.{Name};
    ghost use Rattle.nddl_grammar.specs.Symbols.{PlainSymbol};

    ghost Value = { PlainSymbol };

    ghost view = { λ token. record { sort = token.sort; bytes = token.bytes.now; value = token.value; at = token.at } };

    ghost invariant = { λ token. token.sort ≡ Name → IsUtf8 token.bytes.now };
}

impl<'a> Symbol<'a> {
    pub fn sort(&self) -> Sort
        ensures { result ≡ self.now.sort }
    {
        self.sort
    }

    /// The byte of the text at which it begins.
    pub fn at(&self) -> u32
        ensures { result ≡ self.now.at }
    {
        self.at
    }

    /// The value of a number, and of a decimal in thousandths.
    pub fn value(&self) -> i32
        ensures { result ≡ self.now.value }
    {
        self.value
    }

    /// The bytes in memory of their own.
    pub fn bytes(&self, alloc: Global) -> Result<Bytes, AllocError>
        ensures { IfOk result (λ bytes. bytes ≡ self.now.bytes) }
    {
        Bytes::from_slice(alloc, self.bytes)
    }

    /// The bytes of a name as text.
    pub fn text(&self, alloc: Global) -> Result<Text, AllocError>
        ensures { IfOk result (λ text. self.now.sort ≡ Name → text ≡ self.now.bytes) }
    {
        let string = String::from_utf8_lossy(alloc, self.bytes)?;
        Ok(Text::from_string(string))
    }

    /// A symbol of the sort, with these bytes, at this place.
    pub fn new(sort: Sort, bytes: &'a [u8], value: i32, at: u32) -> Symbol<'a>
        requires { sort ≡ Name → IsUtf8 bytes.now }
        ensures { result ≡ record { sort = sort; bytes = bytes.now; value = value; at = at } }
    {
        Symbol {
            sort,
            bytes,
            value,
            at,
        }
    }
}
