//! The greatest sum of changes at an instant over all schedules of time edges, `peak(alloc, &edges, &changes, at)?`.
//! In come points, edges and changes at the points; out go the sum, a schedule that has it, and a cut which shows that no schedule has more (`PeakProof`).
//! Knows nothing of tokens, resources, and what a change comes from. How the schedule and the cut are found may change.
#![tactic(auto)]

mod certain;
pub mod change;
mod filling;
mod finish;
mod flow;
mod joined;
mod labels;
mod latest;
pub mod laws;
mod more_edges;
mod pairs;
pub mod peak;

pub use change::{Amount, PeakFault, PeakProof, PointChange};
