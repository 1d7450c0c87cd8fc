//! Rules: what a token asks for.

ghost use Rattle.model_core.specs.Numbers.{ItemsHaveNumbers};

use super::item::{Item, Term};
use super::variable::{Base, VarDecl};
use eu_name::sequence::Sequence;
use std::marker::Model;

/// A rule of a predicate.
#[derive(Drop)]
pub struct Rule {
    /// The block that is open wherever the decisions activate a token of the predicate.
    pub top: Block,
    /// The further tokens that the rule asks for, by number.
    pub slots: Sequence<Slot>,
    /// Its local variables, by number.
    pub locals: Sequence<VarDecl>,
}

/// A token that a rule asks for.
#[derive(Drop)]
pub struct Slot {
    pub pred: u32,
    /// The objects that it may be on.
    pub object: Base,
}

/// What two terms have to be for a block to open.
#[derive(Clone, Copy)]
pub enum Guard {
    Equal(Term, Term),
    Differ(Term, Term),
}

/// A turn on the way to a block: the place of the branch among the entries, and which of its two blocks.
#[derive(Clone, Copy, PartialEq, Eq, Hash)]
pub struct Turn {
    pub entry: u16,
    pub side: Side,
}

/// One of the two blocks of a branch.
#[derive(Clone, Copy, PartialEq, Eq, Hash)]
pub enum Side {
    /// The block that opens where the guard is true.
    Then,
    /// The block that opens where the guard is false.
    Otherwise,
}

/// What stands in a block.
#[derive(Drop)]
#[cycle(block)]
pub enum Entry {
    /// A slot of the rule, by its number.
    Slot(u32),
    /// A local of the rule, by its number.
    Local(u32),
    Item(Item),
    /// Two blocks, of which one opens where the guard is true and the other where it is false.
    Branch {
        guard: Guard,
        then: Block,
        otherwise: Block,
    },
}

/// Entries in order of text.
#[derive(Drop)]
#[cycle(block)]
pub struct Block {
    pub entries: Vec<Entry>,
}

impl Model for Block {
    ghost use Rattle.model_core.specs.Entries.{Entries};

    ghost Value = { Entries };

    ghost use Rattle.model_core.specs.Code.{entries_code};

    ghost coded = { entries_code };

    ghost use Rattle.model_core.specs.Entries.{size_of};
    ghost use Rattle.model_core.specs.Block.{plain_entries};

    ghost view = { λ inside. plain_entries inside.entries.items };

    ghost size = { λ block. size_of block };

    ghost use Rattle.std.proofs.Common.{arith};
    ghost use Rattle.model_core.specs.Falls.{entries_most_deep};

    ghost size_decreases = { λ a h. omega (arith, entries_most_deep a.entries.items) };
}

/// A law: each item that stands in a rule has a number.
pub fn items_have_numbers()
    ensures { ItemsHaveNumbers }
{}
