//! The greatest sum of changes at an instant over all schedules.
//!
//! Changes that some schedules have by the instant and others don't are the ends of a transport: what a change adds may
//! be used up by one that takes and whose point no schedule has later. What can't be used up is the greatest sum. So it
//! is with critical sets and envelopes of Muscettola.

ghost use Rattle.std.specs.Prelude.{◌≡◌, ◌≤◌, length, All, IfOk, IfErr};
ghost use Rattle.temporal_core.specs.TimeBounds.{AreBounds};
ghost use Rattle.flow_envelope.specs.Peak.{IsInstant, IsChange, IsPeak, IsNoPeak};
ghost use Rattle.flow_envelope.specs.Certain.{AreCertain};
ghost use Rattle.flow_envelope.specs.Pins.{HasSchedule};
ghost use Rattle.flow_envelope.specs.Finish.{IsBegun, IsEnded};

use super::certain::{Certainty, certainties};
use super::change::{PeakFault, PeakProof, PointChange};
use super::filling::{fill, flow_of};
use super::finish::{cut_of, left_sum, pins_of};
use super::flow::Flow;
use super::labels::Labels;
use super::latest::latest;
use super::pairs::pairs_of;
use eu_name::sequence::Sequence;
use std::alloc::{AllocError, Global};
use temporal_core::bounds::bounds;
use temporal_core::edges::Edges;
use temporal_core::{TimeBounds, TimeFault};

// The pairs, with all that the changes have to give and all the room that they have.
fn begun(
    alloc: Global,
    edges: &Edges,
    changes: &[PointChange],
    certain: &[Certainty],
    at: i32,
) -> Result<Flow, AllocError>
    requires few { length changes.now ≤ 1024 }
    requires at { IsInstant at }
    requires changes { All (IsChange edges.now.points) changes.now }
    requires certain { AreCertain edges.now.edges changes.now at certain.now }
    ensures { IfOk result (IsBegun edges.now.edges changes.now at certain.now) }
{
    let pairs = pairs_of(alloc, edges, changes, certain, at)?;
    let flow = flow_of(alloc, changes, pairs)?;
    Ok(flow)
}

// The sum, a schedule that has it, and the cut, where no more can be carried.
fn ended(
    alloc: Global,
    edges: &Edges,
    changes: &[PointChange],
    certain: &[Certainty],
    at: i32,
    flow: &Flow,
    labels: &Labels,
) -> Result<PeakProof, AllocError>
    requires few { length changes.now ≤ 1024 }
    requires at { IsInstant at }
    requires changes { All (IsChange edges.now.points) changes.now }
    requires certain { AreCertain edges.now.edges changes.now at certain.now }
    requires schedule { HasSchedule edges.now.edges }
    requires ended { IsEnded edges.now.edges changes.now at certain.now flow.now labels.now }
    ensures { IfOk result (IsPeak edges.now changes.now at) }
{
    let pins = pins_of(alloc, changes, certain, labels.adders.as_slice())?;
    let schedule = latest(alloc, edges, pins.as_slice(), at)?;
    let cut = cut_of(alloc, flow.pairs.as_slice())?;
    let sum = left_sum(certain, flow.more.as_slice(), flow.room.as_slice());
    Ok(PeakProof {
        sum,
        schedule: Sequence::from_vec(schedule),
        cut: Sequence::from_vec(cut),
    })
}

// The sum, a schedule that has it, and the cut, by what is certain of each change.
fn proof_with(
    alloc: Global,
    edges: &Edges,
    changes: &[PointChange],
    certain: &[Certainty],
    at: i32,
) -> Result<PeakProof, AllocError>
    requires few { length changes.now ≤ 1024 }
    requires at { IsInstant at }
    requires changes { All (IsChange edges.now.points) changes.now }
    requires certain { AreCertain edges.now.edges changes.now at certain.now }
    requires schedule { HasSchedule edges.now.edges }
    ensures { IfOk result (IsPeak edges.now changes.now at) }
{
    let mut flow = begun(alloc, edges, changes, certain, at)?;
    let labels = fill(alloc, &mut flow)?;
    ended(alloc, edges, changes, certain, at, &flow, &labels)
}

// The sum, a schedule that has it, and the cut, where there are schedules with these bounds.
fn proof_of(
    alloc: Global,
    edges: &Edges,
    changes: &[PointChange],
    at: i32,
    ends: &TimeBounds,
) -> Result<PeakProof, AllocError>
    requires few { length changes.now ≤ 1024 }
    requires at { IsInstant at }
    requires changes { All (IsChange edges.now.points) changes.now }
    requires ends { AreBounds edges.now ends.now }
    ensures { IfOk result (IsPeak edges.now changes.now at) }
{
    let certain = certainties(alloc, changes, ends, at)?;
    proof_with(alloc, edges, changes, certain.as_slice(), at)
}

/// The greatest sum of the adds of all changes whose point is at or before the instant, over all schedules of the edges:
/// with a schedule that has it, and a cut which shows that no schedule has more. Or there is no schedule.
///
/// It asks for the bounds once, once more for each change that adds and isn't certain, and twice at the end. Then it
/// carries amounts: at most once for each pair of changes over which one label is put on another.
pub fn peak(
    alloc: Global,
    edges: &Edges,
    changes: &[PointChange],
    at: i32,
) -> Result<PeakProof, PeakFault>
    requires few { length changes.now ≤ 1024 }
    requires at { IsInstant at }
    requires changes { All (IsChange edges.now.points) changes.now }
    ensures ok { IfOk result (IsPeak edges.now changes.now at) }
    ensures err { IfErr result (IsNoPeak edges.now) }
{
    match bounds(edges) {
        Ok(ends) => Ok(proof_of(alloc, edges, changes, at, &ends)?),
        Err(TimeFault::Cycle(_places)) => Err(PeakFault::Cycle),
        Err(TimeFault::Memory) => Err(PeakFault::Memory),
    }
}
