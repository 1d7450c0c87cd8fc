//! What classes and predicates are made of.

ghost use Rattle.std.specs.Prelude.{◌≡◌};
ghost use Rattle.nddl_types.specs.Classes.{class_entries, class_numbers};

use model_core::class::Enum;
use nddl_hierarchy::Basis;

/// What is known of the program, the enums, the numbers of the names that are classes, and which class each name would
/// be.
#[derive(Clone, Copy)]
pub struct Sources<'a> {
    pub basis: Basis<'a>,
    pub enums: &'a [Enum],
    pub entries: &'a [usize],
    pub numbers: &'a [u32],
    ghost are_entries: { entries.now ≡ class_entries basis.types.scope.now 0 basis.types.scope.now },
    ghost are_numbers: { numbers.now ≡ class_numbers basis.types.scope.now 4 0 basis.types.scope.now },
}
