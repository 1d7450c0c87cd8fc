//! Tests of whole models: which model a text compiles to, and which changes of a lawful model leave it lawful.
//! Texts come in with their models, worked out by hand and told in lines, and changes with what `is_lawful` has to answer.
//! Nothing here is called by others: `rt test` proves and runs the tests.
//! It knows nothing of plans, the database and the search. All of it may change.
#![tactic(auto)]

#[cfg(test)]
mod compiled;
#[cfg(test)]
mod lawful;
#[cfg(test)]
mod parts;
#[cfg(test)]
mod resources;
#[cfg(test)]
mod rovers;
#[cfg(test)]
mod rows;
#[cfg(test)]
mod ruled;
#[cfg(test)]
mod unrolled;
