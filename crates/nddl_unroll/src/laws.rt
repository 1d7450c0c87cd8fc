//! Laws of rules that are unrolled.

ghost use Rattle.nddl_unroll.specs.Enough.{CountsEnough};
ghost use Rattle.nddl_unroll.specs.Exact.{CountsExactly, LimitsAreExact};
ghost use Rattle.nddl_unroll.specs.Unnamed.{LocalsAreUnnamed};

/// A law: a rule that is unrolled has no more slots, locals, items and guards than are counted from its text.
pub fn texts_are_counted()
    ensures { CountsEnough }
{}

/// A law: where all that is read in a text means something, its rule has exactly what is counted from it, and takes as
/// many turns.
pub fn texts_are_counted_exactly()
    ensures { CountsExactly }
{}

/// A law: where all that is read in texts means something, the limits that are told are those that their rules pass.
pub fn limits_are_exact()
    ensures { LimitsAreExact }
{}

/// A law: no local of a rule that is unrolled has a name.
pub fn locals_are_unnamed()
    ensures { LocalsAreUnnamed }
{}
