//! What values stand for while objects are made: `fine_datum(alloc, footing, scene, objects, wanted, expr)?`.
//! In come the facts, what names stand for by now, and the objects so far; out go values, what constructors pass on,
//! faults.
//! Called by nddl_objects; single values by nddl_problem_check, nddl_env and nddl_instance.
//! Makes no object, and knows no order of making. What `Builders`, `FieldTypes` and `SetFields` keep may change.
#![tactic(auto)]

pub mod builders;
pub mod classes;
pub mod fields;
pub mod fitting;
pub mod handing;
pub mod kept;
pub mod made;
pub mod outside;
pub mod passing;
pub mod reading;

pub use builders::{Builder, Builders};
pub use classes::{adding_up, made_class};
pub use fields::SetFields;
pub use fitting::{is_foreign_datum, is_outside_type};
pub use kept::FieldTypes;
pub use made::{Datum, FieldValue, Ground, MadeObject, NamedObject, Scene};
pub use outside::is_outside_field;
pub use passing::{Invocation, Passed, note_passing, passed_down};
pub use reading::{fine_data, fine_datum, note_unmade};
