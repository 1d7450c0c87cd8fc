//! The plan of a state without a flaw: `plan_of(alloc, model, view)?`.
//! In come a lawful model and a `View` of the least state of a settled list; out goes a `Plan`, or that there is a flaw.
//! Called by session_replies and run_commands, which print the plan; plan_core offers it at its root.
//! Knows nothing of how states are stored, of texts, and of how flaws are mended. How the lines are put together may change.
#![tactic(auto)]

ghost use Rattle.std.specs.Prelude.{◌≡◌, ◌++◌, ◌∷◌, [], MatchResult};
ghost use Rattle.plan_states.specs.declared.fault.PlanOfFault.TheVariants.{Memory};

pub mod fault;
mod locals;
pub mod making;
mod parts;
mod tokens;

pub use fault::PlanOfFault;
pub use making::plan_of;

// Puts the item at the end of the list.
fn push_item<T: Drop>(list: &mut Vec<T>, item: T) -> Result<(), PlanOfFault>
    ensures { MatchResult result
        (λ _. list.new.items ≡ list.old.items ++ item ∷ [])
        (λ fault. fault ≡ Memory) }
{
    match list.push(item) {
        Ok(()) => Ok(()),
        Err(_full) => Err(PlanOfFault::Memory),
    }
}
