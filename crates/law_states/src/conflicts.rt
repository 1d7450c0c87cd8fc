//! Laws: a list has one conflict, and none of it can go.

ghost use Rattle.law_states.specs.Conflicts.{ConflictIsOne, ConflictsAreMinimal};

use crate::least::least_states_are_well_founded;

/// A list has one conflict at most.
pub fn a_conflict_is_one()
    ensures { ConflictIsOne }
{}

/// The conflict of a settled list that leaves nothing leaves nothing itself, nothing of it has to go, and without any one of its
/// decisions what can be kept of it leaves something.
pub fn conflicts_are_minimal()
    ensures { ConflictsAreMinimal }
{
    least_states_are_well_founded();
}
