//! Lowers a statement to what it adds to a rule: `add_call(alloc, reading, turns, call, &mut growth)?`.
//! In come what is known of the rule, one statement, and the rule so far (`Growth`); the rule grows in the order of the
//! text.
//! Called by nddl_unroll for statements and guards, and by nddl_instance for constraints and posted tokens.
//! Knows nothing of blocks and `foreach`, faults and limits. How each part is put together may change.
#![tactic(auto)]

pub mod arguments;
pub mod calls;
pub mod compared;
pub mod locals;
pub mod slots;
pub mod types;
