//! Tests of the compiler's stages: symbols, the table of names and types, trees of rules, first faults of whole programs.
//! Texts come in as rows, each with what is answered of it, worked out by hand from the language; the answers are compared.
//! Nothing here is called by others: `rt test` proves and runs the tests.
//! It knows nothing of plans, the database and the search. All of it may change.
#![tactic(auto)]

#[cfg(test)]
mod asked;
#[cfg(test)]
mod faults;
#[cfg(test)]
mod programs;
#[cfg(test)]
mod rows;
#[cfg(test)]
mod rules;
#[cfg(test)]
mod scopes;
#[cfg(test)]
mod sites;
#[cfg(test)]
mod tables;
#[cfg(test)]
mod trees;
