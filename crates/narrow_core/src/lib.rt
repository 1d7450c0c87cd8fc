//! Constraints: what each takes from the domains of its arguments in one pass, as `Leq.narrow(&mut [x, y])`.
//! In come the domains of two or three arguments, which are narrowed in place; out goes a `Change`.
//! Called by constraint_net, which goes on to a fixpoint.
//! Knows nothing of networks, tokens, rules and decisions. How a constraint finds the values that have support may change.
#![tactic(auto)]

pub mod equal;
pub mod field;
pub mod laws;
mod limits;
pub mod narrow;
pub mod order;
mod passing;
pub mod product;
pub mod sum;
pub mod tested;

pub use equal::{Eq, Neq};
pub use field::FieldEntry;
pub use order::{Leq, Lt};
pub use product::MulEq;
pub use sum::AddEq;
pub use tested::{TestEq, TestLeq};
