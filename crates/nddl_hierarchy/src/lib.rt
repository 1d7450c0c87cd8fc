//! What classes and typedefs stand under, and which members a class inherits: `is_under(alloc, basis, class, entry)?`.
//! In come the symbol table and the declarations; out go parents, lines of ancestors, member names and faults.
//! Called by all stages from nddl_declarations on; the `Basis` that they read is made in nddl_types.
//! Knows nothing of tables, rules and objects. `ShortLines` and `MemberIndex` may change inside: `Facts` has neither.
#![tactic(auto)]

pub mod basis;
pub mod circles;
pub mod decls;
pub mod lines;
pub mod member_names;
pub mod members;
pub mod names;
pub mod objects;
pub mod parents;
pub mod rounds;
pub mod shorter;
pub mod spot;
pub mod under;

pub use basis::Basis;
pub use eu_forest::Parents;
pub use member_names::member_name;
pub use members::MemberIndex;
pub use names::{inherited, note_word};
pub use shorter::{ShortLines, adding_line, building_line, has_named};
pub use spot::Spot;
