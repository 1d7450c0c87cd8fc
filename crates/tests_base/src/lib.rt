//! Tests of the ground and of the constraints, of names in a model and of the generated problem.
//! Rows and small cases worked out by hand come in, and what the calls answer is compared. So is what no clause says: that a
//! call succeeds where memory suffices, and what the adapters do with the system's own files and streams.
//! Nothing here is called by others: `rt test` proves and runs the tests.
//! It knows nothing of the compiler, plans and the database. All of it may change.
#![tactic(auto)]

#[cfg(test)]
mod domains;
#[cfg(test)]
mod names;
#[cfg(test)]
mod narrowing;
#[cfg(test)]
mod networks;
#[cfg(test)]
mod peaks;
#[cfg(test)]
mod problem_names;
#[cfg(test)]
mod problems;
#[cfg(test)]
mod profiles;
#[cfg(test)]
mod rows;
#[cfg(test)]
mod sample;
#[cfg(test)]
mod shapes;
#[cfg(test)]
mod streams;
#[cfg(test)]
mod times;
