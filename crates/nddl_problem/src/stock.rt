//! The objects of a program, and what its names stand for with these.

ghost use Rattle.std.specs.Prelude.{◌≡◌, [], IfOk, Ok, Err, MatchResult};
ghost use Rattle.nddl_hierarchy.specs.Facts.{facts_of};
ghost use Rattle.nddl_types.specs.Classes.{class_entries};
ghost use Rattle.nddl_rules.specs.Told.{scope_places};
ghost use Rattle.nddl_env.specs.Shapes.{world_of};
ghost use Rattle.nddl_env.specs.Lexicons.{lexicon_of};
ghost use Rattle.nddl_problem.specs.Stocked.{IsStocked};

use eu_index::NameIndex;
use nddl_env::{Premises, lexicon, objects_by_class};
use nddl_hierarchy::Basis;
use nddl_objects::make_objects;
use nddl_objects::objects::Program as Made;
use nddl_rules::scope::scope_places;
use nddl_terms::{Lexicon, Populations};
use nddl_types::TypeTable;
use std::alloc::{AllocError, Global};

/// The objects that were made, and those of each class.
#[derive(Drop)]
pub struct Stock {
    pub made: Made,
    pub by_class: Populations,
}

/// What names, classes and predicates stand for, and the places of the names in the scope of a table.
#[derive(Drop)]
pub struct Words {
    pub lexicon: Lexicon,
    pub scope: NameIndex,
}

impl Stock {
    /// Makes the objects of a program in which the names of these numbers are classes.
    pub fn of(alloc: Global, basis: &Basis<'_>, entries: &[usize]) -> Result<Stock, AllocError>
        requires { entries.now ≡ class_entries basis.now.types.scope.now 0 basis.now.types.scope.now }
        ensures { IfOk result (IsStocked (facts_of basis.now)) }
    {
        let made = make_objects(alloc, basis)?;
        let by_class = objects_by_class(alloc, basis, entries, made.making.objects.as_slice());
        join_lists(made, by_class)
    }
}

// What was made, with the lists of each class.
fn join_lists(made: Made, by_class: Result<Populations, AllocError>) -> Result<Stock, AllocError>
    ensures { MatchResult by_class
        (λ lists. result ≡ Ok (record { made = made; by_class = lists })) (λ fault. result ≡ Err fault) }
{
    match by_class {
        Ok(by_class) => Ok(Stock { made, by_class }),
        Err(fault) => Err(fault),
    }
}

impl Words {
    /// Of a program that has these premises and this table.
    pub fn of(
        alloc: Global,
        premises: &Premises<'_>,
        table: &TypeTable,
    ) -> Result<Words, AllocError>
        ensures lexicon { IfOk result (λ words. words.lexicon ≡ lexicon_of (world_of premises.now)) }
        ensures scope { IfOk result (λ words. words.scope ≡ scope_places [] 0 table.now.scope) }
    {
        let scope = scope_places(alloc, table.scope.as_slice())?;
        let lexicon = lexicon(alloc, premises)?;
        Ok(Words { lexicon, scope })
    }
}
