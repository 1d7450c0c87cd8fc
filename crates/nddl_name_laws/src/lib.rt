//! Laws of the names of objects and of posted tokens, where nothing is wrong with them: `names_stand_for_objects()`.
//! A law takes and gives nothing; its clause is what is proved.
#![tactic(auto)]

pub mod object_laws;

pub use object_laws::names_stand_for_objects;
