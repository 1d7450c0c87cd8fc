//! Tests of the plan database, of searches, conflicts and cycles on it, and of the plan of a state.
//! Steps on the models `mission` and `rounds` come in as rows, each with its answer, worked out by hand from what a state
//! is; the answers are compared, and it is counted how much work some steps take.
//! Nothing here is called by others: `rt test` proves and runs the tests.
//! It knows nothing of texts, scripts and the program. All of it may change.
#![tactic(auto)]

#[cfg(test)]
mod asking;
#[cfg(test)]
mod circle;
#[cfg(test)]
mod deciding;
#[cfg(test)]
mod full;
#[cfg(test)]
mod names;
#[cfg(test)]
mod offered;
#[cfg(test)]
mod reasons;
#[cfg(test)]
mod rows;
#[cfg(test)]
mod searching;
#[cfg(test)]
mod steps;
#[cfg(test)]
mod trial;
#[cfg(test)]
mod work;
