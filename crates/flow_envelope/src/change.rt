//! Changes at points, and what is answered of them.

use eu_name::sequence::Sequence;
use std::alloc::AllocError;

/// So much is added at the point with this number, or taken where it is less than nothing.
#[derive(Clone, Copy, Debug)]
pub struct PointChange {
    pub point: u32,
    pub add: i32,
}

/// So much of what one change adds is taken by another, each named by its place in the list.
#[derive(Clone, Copy, Debug)]
pub struct Amount {
    pub from: u32,
    pub to: u32,
    pub amount: i64,
}

/// The greatest sum, the value of each point in a schedule that has it, and amounts which show that none has more.
#[derive(Drop)]
pub struct PeakProof {
    pub sum: i64,
    pub schedule: Sequence<i64>,
    pub cut: Sequence<Amount>,
}

/// Why there is no greatest sum.
#[derive(Drop)]
pub enum PeakFault {
    /// The edges have no schedule.
    Cycle,
    Memory,
}

impl From<AllocError> for PeakFault {
    ghost use Rattle.std.specs.Prelude.{◌≡◌};
    ghost use Rattle.flow_envelope.specs.declared.change.PeakFault.TheVariants.{Memory};

    ghost from_gives = { λ _ fault. fault ≡ Memory };

    fn from(_none: AllocError) -> PeakFault {
        PeakFault::Memory
    }
}
