//! Makes the objects of a program by running its constructors: `make_objects(alloc, basis)?`.
//! In comes a `Basis`; out go objects, what each name stands for, settings, and the earliest faults (`Program`).
//! Called by nddl_problem, which takes the objects into the model by `modelled_objects`.
//! Knows nothing of rules, the lexicon and the problem. How constructors are run may change.
#![tactic(auto)]

pub mod blueprint;
pub mod finished;
pub mod making;
pub mod modelled;
pub mod objects;
pub mod running;
pub mod settings;

pub use blueprint::{Blueprint, ClassFindings};
pub use making::{Instantiation, Making};
pub use modelled::modelled_objects;
pub use objects::{Program, make_objects};
pub use running::make_new;
