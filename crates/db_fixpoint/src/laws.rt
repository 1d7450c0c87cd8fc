//! Laws of stores that are underway.

ghost use Rattle.db_fixpoint.specs.UnfoldingLaws.{UnfoldedBlocksCanBeRead};

/// A law: what an unfolded block names is there.
pub fn unfolded_blocks_can_be_read()
    ensures { UnfoldedBlocksCanBeRead }
{}
