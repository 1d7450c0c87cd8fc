//! Plans, and what a plan can break.

use eu_name::name::{TokenName, VarName};
use eu_name::sequence::Sequence;

/// A plan: what becomes of each token, and the value of each variable.
///
/// Its lines stand in order of names, the locals of a token behind its own line. The definition `IsPlanOf` says which
/// plans are plans of a model.
#[derive(Drop)]
pub struct Plan {
    /// The values of the globals by number, up to the first that is given none.
    pub globals: Sequence<i32>,
    pub lines: Sequence<Line>,
}

/// What a plan says of one token, or of one local.
#[derive(Drop)]
pub enum Line {
    /// The token takes place, with these values of its start, end, duration, object and parameters.
    Token {
        name: TokenName,
        /// It does so as a fact.
        fact: bool,
        values: Sequence<i32>,
    },
    /// The token is the target, and has its values.
    Merged {
        name: TokenName,
        target: TokenName,
    },
    /// The token doesn't take place.
    Rejected {
        name: TokenName,
    },
    /// The local has this value.
    Local {
        name: VarName,
        value: i32,
    },
}

/// What a valid plan keeps, by the words that are printed for it.
#[derive(Clone, Copy, Debug, PartialEq, Eq)]
pub enum Clause {
    /// Each global has a value of its base.
    V1,
    /// Each root has a line of its sort, and no other token one of a fact or of a rejection.
    V2,
    /// What takes place has values of its bases, and ends its duration after its start.
    V3,
    /// What is merged is another token of the same predicate that takes place, with values of its own bases.
    V4,
    /// What open blocks ask for is there: their slots' tokens, and a value of its base for each local.
    V5,
    /// Nothing is there that no open block asks for.
    V6,
    /// What the problem and the open blocks say holds.
    V7,
    /// No two tokens of one timeline overlap.
    V8,
    /// No reusable is used beyond its capacity.
    V9,
    /// The level of each reservoir stays within its limits.
    V10,
}

/// Where a clause is broken. A line is given by its place in the plan; rules, slots, locals and items are those of the
/// predicate of the line's token, by number.
#[derive(Clone, Copy, Debug, PartialEq, Eq)]
pub enum Place {
    Global(u32),
    /// The token of the root of this number.
    Root(u32),
    /// The token or the local of the line.
    Line(u32),
    /// The token of a slot in an open block.
    Slot { line: u32, rule: u16, slot: u16 },
    /// A local in an open block.
    Local { line: u32, rule: u16, number: u16 },
    /// The item of the problem of this number.
    Problem(u32),
    /// An item in an open block, by how many items stand before it in the text of the rule.
    Item { line: u32, rule: u16, item: u32 },
    /// The tokens of two lines.
    Pair(u32, u32),
    /// An object at an instant.
    Instant { object: u32, at: i32 },
}
