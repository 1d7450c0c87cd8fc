//! Files, models and their words for tests: `shelf_of(alloc, &[("m", text), ("q", other)])?` is a shelf with these files.
//! Names and texts come in, a shelf goes out; nothing comes in, and a model goes out that is lawful by its contract: `mission`
//! has a rule with a guard, a fact, a goal, rejectables and resources, `rounds` has tokens that ask for more of the same; a
//! model comes in, and its lines go out. tests_compiler, tests_model, tests_plans, tests_database and tests_program call it.
//! It knows nothing of the compiler, plans and the database. How the models are put together may change.
#![tactic(auto)]

pub mod blocks;
pub mod declared;
pub mod items;
pub mod lines;
pub mod mission;
pub mod models;
mod pieces;
pub mod repeating;
pub mod rounds;
pub mod shelves;
pub mod variables;

pub use models::model_lines;
pub use repeating::repeated;
pub use shelves::shelf_of;
