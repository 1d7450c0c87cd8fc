//! A place in a list of symbols, and reading on from it.

ghost use Rattle.std.specs.Prelude.{◌≡◌, ◌∷◌, [], List, MatchOption, length};
ghost use Rattle.nddl_grammar.specs.declared.cursor.Stop.TheVariants.{Memory};
ghost use Rattle.nddl_grammar.specs.Symbols.{PlainSymbol};
ghost use Rattle.nddl_grammar.specs.Readers.{begins, next_place, next_sort, is, mark, may_mark, mark_place, symbol_of, IsFound, IsFoundAs};

use super::sort::Sort;
use super::symbol::Symbol;
use std::alloc::{AllocError, Global};
use std::marker::Model;

/// Why reading stopped. The cursor then stands at the symbol at which it did.
#[derive(Clone, Copy, Debug, PartialEq, Eq)]
pub enum Stop {
    /// Nothing that is wanted begins with the symbol, or there is none.
    Stuck,
    /// A block that begins with the symbol is nested too deep.
    Deep,
    /// There is no memory.
    Memory,
}

impl From<AllocError> for Stop {
    ghost from_gives = { λ _ stop. stop ≡ Memory };

    fn from(_error: AllocError) -> Stop {
        Stop::Memory
    }
}

/// What is left of a list of symbols.
#[derive(Drop)]
pub struct Cursor<'a> {
    alloc: Global,
    symbols: &'a [Symbol<'a>],
    next: usize,
}

impl<'a> Model for Cursor<'a> {
    ghost use Rattle.std.specs.Prelude.{List, drop, length, ◌≤◌};
    ghost use Rattle.nddl_grammar.specs.Symbols.{PlainSymbol};

    ghost Value = { List PlainSymbol };

    ghost view = { λ cursor. drop cursor.next cursor.symbols.now };

    ghost invariant = { λ cursor. cursor.next ≤ length cursor.symbols.now };
}

impl<'a> Cursor<'a> {
    /// A cursor at the first of the symbols; what is read takes its memory from the allocator.
    pub fn new(alloc: Global, symbols: &'a [Symbol<'a>]) -> Cursor<'a>
        ensures { result ≡ symbols.now }
    {
        Cursor {
            alloc,
            symbols,
            next: 0,
        }
    }

    /// The allocator from which what is read takes its memory.
    pub fn allocator(&self) -> Global {
        self.alloc
    }

    /// How many symbols are left.
    pub fn len(&self) -> usize
        ensures { result ≡ length self.now }
    {
        self.symbols.len() - self.next
    }

    // The next symbol.
    fn first(&self) -> Option<&'a Symbol<'a>>
        ensures { MatchOption result (self.now ≡ []) (λ symbol. (rest : List PlainSymbol) × (self.now ≡ symbol.now ∷ rest)) }
    {
        self.symbols.get(self.next)
    }

    /// The sort of the next symbol, if there is one.
    pub fn sort(&self) -> Option<Sort>
        ensures { result ≡ next_sort self.now }
    {
        match self.first() {
            Some(symbol) => Some(symbol.sort()),
            None => None,
        }
    }

    /// The place of the next symbol; where there is none, the end.
    pub fn place(&self, end: u32) -> u32
        ensures { result ≡ next_place end self.now }
    {
        match self.first() {
            Some(symbol) => symbol.at(),
            None => end,
        }
    }

    /// Whether the next symbol is of the sort.
    pub fn is_at(&self, sort: Sort) -> bool
        ensures { result ≡ begins (is sort) self.now }
    {
        match self.first() {
            Some(symbol) => symbol.sort().is(sort),
            None => false,
        }
    }

    // Leaves the next symbol behind.
    fn advance(&mut self)
        ensures { (symbol : PlainSymbol) (rest : List PlainSymbol) → self.old ≡ symbol ∷ rest → self.new ≡ rest }
    {
        if self.next < self.symbols.len() {
            self.next += 1;
        }
    }

    /// Takes the next symbol if it is of the sort.
    pub fn take(&mut self, sort: Sort) -> Result<&'a Symbol<'a>, Stop>
        ensures { IsFoundAs (λ symbol. symbol.now) result self.new (symbol_of sort self.old) }
    {
        match self.first() {
            Some(symbol) => {
                if symbol.sort().is(sort) {
                    self.advance();
                    Ok(symbol)
                } else {
                    Err(Stop::Stuck)
                }
            }
            None => Err(Stop::Stuck),
        }
    }

    /// Takes the next symbol if it is of the sort, and forgets it.
    pub fn mark(&mut self, sort: Sort) -> Result<(), Stop>
        ensures { IsFound result self.new (mark sort self.old) }
    {
        self.take(sort)?;
        Ok(())
    }

    /// Takes the next symbol if it is of the sort, and keeps its place.
    pub fn mark_place(&mut self, sort: Sort) -> Result<u32, Stop>
        ensures { IsFound result self.new (mark_place sort self.old) }
    {
        let symbol = self.take(sort)?;
        Ok(symbol.at())
    }
    /// Takes the next symbol if it is of the sort, and else nothing.
    pub fn may_mark(&mut self, sort: Sort) -> Result<(), Stop>
        ensures { IsFound result self.new (may_mark sort self.old) }
    {
        if self.is_at(sort) {
            self.mark(sort)
        } else {
            Ok(())
        }
    }
}
