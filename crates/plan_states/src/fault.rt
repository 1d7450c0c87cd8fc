//! Why a state has no plan.

use std::alloc::AllocError;

/// Why there is no plan of a state.
#[derive(Clone, Copy, Debug, PartialEq, Eq)]
pub enum PlanOfFault {
    /// The state has a flaw.
    Open,
    /// There is no memory for the plan.
    Memory,
}

impl From<AllocError> for PlanOfFault {
    ghost use Rattle.std.specs.Prelude.{◌≡◌};
    ghost use Rattle.plan_states.specs.declared.fault.PlanOfFault.TheVariants.{Memory};

    ghost from_gives = { λ _ fault. fault ≡ Memory };

    fn from(_error: AllocError) -> PlanOfFault {
        PlanOfFault::Memory
    }
}
