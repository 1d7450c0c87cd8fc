//! Tests of whole runs and of sessions: what a planner sees, and what is left where a call of the outside fails.
//! Words, files and input come in as rows, each with the status and the output of its run, worked out by hand, to compare.
//! Nothing here is called by others: `rt test` proves and runs the tests.
//! Runs enter by `europa`, and sessions by `session` with a responder of their own. All of it may change.
#![tactic(auto)]

#[cfg(test)]
mod checks;
#[cfg(test)]
mod costs;
#[cfg(test)]
mod decimals;
#[cfg(test)]
mod faults;
#[cfg(test)]
mod fronts;
#[cfg(test)]
mod limits;
#[cfg(test)]
mod misuse;
#[cfg(test)]
mod plans;
#[cfg(test)]
mod posts;
#[cfg(test)]
mod rows;
#[cfg(test)]
mod runs;
#[cfg(test)]
mod scripts;
#[cfg(test)]
mod search_scripts;
#[cfg(test)]
mod session_tests;
#[cfg(test)]
mod shelf_tests;
#[cfg(test)]
mod shown;
#[cfg(test)]
mod texts;
#[cfg(test)]
mod token_scripts;
