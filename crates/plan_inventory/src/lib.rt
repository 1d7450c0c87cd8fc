//! What a plan has: `broken_inventory(&model, &plan)` is the first of the clauses V1 to V6 that it breaks, and where.
//! In come a lawful model and a plan of it; out goes `Broken`, a clause with the place of the least names, or None.
//! Called by plan_check, which goes on with V7 to V10.
//! Knows nothing of states, decisions and texts. How lines are found, and what is kept of a rule that was asked, may change.
#![tactic(auto)]

mod asked;
mod bases;
mod globals;
pub mod inventory;
mod marks;
mod open;
mod recalled;
mod roots;
mod standing;
mod tokens;

pub use asked::activated_by;
pub use bases::pred_in;
pub use inventory::{Broken, broken_inventory};
pub use open::count_rules;
