//! The test of closure on two tokens of one timeline.

ghost use Rattle.std.specs.Prelude.{◌<ℤ◌};
ghost use Rattle.timeline_core.specs.Orders.{Leaves, LeavesInStates};

/// The least and the greatest start and end of a token.
#[derive(Clone, Copy, Debug, PartialEq, Eq)]
pub struct Ends {
    pub start_lo: i32,
    pub start_hi: i32,
    pub end_lo: i32,
    pub end_hi: i32,
}

/// Which orders of two tokens are left.
#[derive(Clone, Copy, Debug, PartialEq, Eq)]
pub enum ForcedOrder {
    /// Either may be first.
    Open,
    /// Only the first one before the second.
    First,
    /// Only the second one before the first.
    Second,
    /// The two overlap in any case.
    Neither,
}

/// Which of "`a` before `b`" and "`b` before `a`" are left for two tokens of one timeline with these ends.
pub fn forced(a: Ends, b: Ends) -> ForcedOrder
    ensures test { Leaves result (b.start_hi <ℤ a.end_lo) (a.start_hi <ℤ b.end_lo) }
    ensures closure { LeavesInStates result a b }
{
    let a_late = b.start_hi < a.end_lo;
    let b_late = a.start_hi < b.end_lo;
    match (a_late, b_late) {
        (false, false) => ForcedOrder::Open,
        (false, true) => ForcedOrder::First,
        (true, false) => ForcedOrder::Second,
        (true, true) => ForcedOrder::Neither,
    }
}
