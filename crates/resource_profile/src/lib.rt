//! Profiles of resources: the first instant at which uses take more than there is, `over_use(&uses, 2)`, or a level is out.
//! In come uses with a capacity, or changes with an initial level and limits, in any order; out goes the instant, or None.
//! Called by plan_check, for what the tokens of a plan use, and by db_resources, for what those of a state do.
//! Knows nothing of tokens, plans and states, and takes no memory. Which instants are looked at, in which order, may change.
#![tactic(auto)]

ghost use Rattle.std.specs.Prelude.{◌↔◌, IsTrue, MatchOption, ⊤};
ghost use Rattle.std.specs.Prelude.{◌<ℤ◌};

pub mod level;
pub mod usage;

pub use level::{LevelChange, Limit, level_out, level_past};
pub use usage::{Use, over_use};

// Whether the instant comes before the one found so far, or none is found yet.
fn is_earlier(instant: i32, found: Option<i32>) -> bool
    ensures { IsTrue result ↔ MatchOption found ⊤ (λ other. instant <ℤ other) }
{
    match found {
        Some(other) => instant < other,
        None => true,
    }
}
