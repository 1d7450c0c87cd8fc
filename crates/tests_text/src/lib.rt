//! Tests of nddl_lexer, nddl_ast, nddl_parser and nddl_print, and of eu_name's words.
//! Texts come in as rows, each with what it is read as or its first fault, worked out by hand; the answers are compared.
//! Nothing here is called by others: `rt test` proves and runs the tests.
//! It knows nothing of the names and types of a program, models, plans and the database. All of it may change.
#![tactic(auto)]

#[cfg(test)]
mod faults;
#[cfg(test)]
mod files;
#[cfg(test)]
mod includes;
#[cfg(test)]
mod lexemes;
#[cfg(test)]
mod rows;
#[cfg(test)]
mod spellings;
#[cfg(test)]
mod texts;
#[cfg(test)]
mod trees;
#[cfg(test)]
mod words;
