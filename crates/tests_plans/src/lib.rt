//! Tests of plans: texts that are read and written, and what `check` says of a plan.
//! Texts of plans of the model `mission` come in as rows, each with its answer, worked out by hand; answers are compared.
//! Nothing here is called by others: `rt test` proves and runs the tests.
//! It knows nothing of the database, the search and the compiler. All of it may change.
#![tactic(auto)]

#[cfg(test)]
mod checks;
#[cfg(test)]
mod rows;
#[cfg(test)]
mod texts;
