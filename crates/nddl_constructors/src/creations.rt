//! What is wrong with `new` and what stands behind it.

ghost use Rattle.std.specs.Prelude.{◌≡◌, IfOk, OnOk};
ghost use Rattle.nddl_ast.specs.declared.expression.Init.TheVariants.{New};
ghost use Rattle.nddl_symbols.specs.Finding.{earliest_fault};
ghost use Rattle.nddl_hierarchy.specs.Facts.{facts_of};
ghost use Rattle.nddl_resolve.specs.Paths.{around_of};
ghost use Rattle.nddl_constructors.specs.Wanted.{wanted_kinds};
ghost use Rattle.nddl_constructors.specs.Creations.{class_alone, creation_faults, set_to_faults, is_no_object, is_of_class, made_fault};

use super::constants::{note_arguments, note_value};
use super::wanted::{Wanted, meaning_wanted};
use nddl_ast::TextKind;
use nddl_ast::expression::{Creation, Init};
use nddl_declarations::class_fault;
use nddl_hierarchy::Basis;
use nddl_hierarchy::lines::is_same_meaning;
use nddl_hierarchy::under::is_under;
use nddl_resolve::Around;
use nddl_symbols::{Fault, Meaning, Scope, kind_if, note_at};
use nddl_typeexpr::TypeKind;
use std::alloc::{AllocError, Global};

/// What means this, if it is a class.
pub fn class_alone(scope: &Scope, meaning: Option<Meaning>) -> Option<Meaning>
    ensures { result ≡ class_alone scope.now meaning }
{
    if class_fault(scope, meaning).is_none() {
        meaning
    } else {
        None
    }
}

/// Whether what is of the second class is of the first one, too.
pub fn is_of_class(
    alloc: Global,
    basis: &Basis<'_>,
    class: Meaning,
    made: Meaning,
) -> Result<bool, AllocError>
    ensures { IfOk result (λ so. so ≡ is_of_class (facts_of basis.now) class made) }
{
    match made {
        Meaning::BuiltIn(number) => Ok(
            is_same_meaning(class, Meaning::BuiltIn(0))
                || is_same_meaning(class, Meaning::BuiltIn(number)),
        ),
        Meaning::Entry(entry) => is_under(alloc, basis, class, entry),
    }
}

// What is wrong with what stands behind `new`, where it means this.
fn made_fault(
    basis: &Basis<'_>,
    meaning: Option<Meaning>,
    wanted: &Wanted<'_>,
    count: usize,
) -> Option<TextKind>
    ensures { result ≡ made_fault (facts_of basis.now).names meaning (wanted_kinds (facts_of basis.now) wanted.now) count }
{
    match class_fault(basis.types.scope, meaning) {
        Some(fault) => Some(fault),
        None => kind_if(wanted.count() != count, TextKind::WrongCount),
    }
}

/// Notes all that is wrong with the `new`.
#[tactic(auto, using(nddl_symbols::proofs::Earliest::earliest_append), unfolding(crate::specs::Creations::creation_faults))]
pub fn note_creation(
    alloc: Global,
    basis: &Basis<'_>,
    around: &Around<'_>,
    decl: usize,
    creation: &Creation,
    first: &mut Option<Fault>,
) -> Result<(), AllocError>
    ensures { OnOk result (first.new ≡ earliest_fault first.old
        (creation_faults (facts_of basis.now) (around_of around.now) decl creation.now)) }
{
    let scope = basis.types.scope;
    let meaning = scope.meaning(&creation.class.text);
    let wanted = meaning_wanted(alloc, basis, class_alone(scope, meaning))?;
    let arguments = creation.arguments.as_slice();
    let fault = made_fault(basis, meaning, &wanted, arguments.len());
    note_at(first, decl, creation.class.at, fault);
    note_arguments(alloc, basis, around, decl, &wanted, arguments, first)
}

/// Whether something else than an object is wanted.
pub fn is_no_object(wanted: Option<TypeKind>) -> bool
    ensures { result ≡ is_no_object wanted }
{
    match wanted {
        None => false,
        Some(TypeKind::Object(_)) => false,
        Some(_) => true,
    }
}

/// Notes all that is wrong with what stands behind `=`, where this is wanted.
#[tactic(auto, using(nddl_symbols::proofs::Earliest::earliest_append))]
pub fn note_init(
    alloc: Global,
    basis: &Basis<'_>,
    around: &Around<'_>,
    decl: usize,
    wanted: Option<TypeKind>,
    init: &Init,
    first: &mut Option<Fault>,
) -> Result<(), AllocError>
    ensures { OnOk result (first.new ≡ earliest_fault first.old
        (set_to_faults (facts_of basis.now) (around_of around.now) decl wanted init.now)) }
{
    match init {
        Init::Expr(expr) => note_value(alloc, basis, around, decl, wanted, expr, first),
        Init::New(creation) => note_made(alloc, basis, around, decl, wanted, creation, first),
    }
}

/// Notes all that is wrong with a `new` behind `=`, where this is wanted.
#[tactic(auto, using(nddl_symbols::proofs::Earliest::earliest_append))]
pub fn note_made(
    alloc: Global,
    basis: &Basis<'_>,
    around: &Around<'_>,
    decl: usize,
    wanted: Option<TypeKind>,
    creation: &Creation,
    first: &mut Option<Fault>,
) -> Result<(), AllocError>
    ensures { OnOk result (first.new ≡ earliest_fault first.old
        (set_to_faults (facts_of basis.now) (around_of around.now) decl wanted (New creation.now))) }
{
    note_at(
        first,
        decl,
        creation.at,
        kind_if(is_no_object(wanted), TextKind::WrongType),
    );
    note_creation(alloc, basis, around, decl, creation, first)
}
