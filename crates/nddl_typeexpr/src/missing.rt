//! Ranges and sets behind a base that means nothing.

ghost use Rattle.std.specs.Prelude.{◌≡◌};
ghost use Rattle.nddl_symbols.specs.Finding.{earliest_fault};
ghost use Rattle.nddl_typeexpr.specs.Bounds.{missing_faults, values_faults};

use super::values::value_fault;
use nddl_ast::expression::{Bounds, Value};
use nddl_symbols::{Fault, Scope, note_at};

/// Notes what is wrong with a range or a set behind a base that means nothing: names that aren't there.
#[tactic(auto, using(nddl_symbols::proofs::Earliest::earliest_append))]
pub fn note_missing_faults(scope: &Scope, decl: usize, bounds: &Bounds, first: &mut Option<Fault>)
    ensures { first.new ≡ earliest_fault first.old (missing_faults scope.now decl bounds.now) }
{
    match bounds {
        Bounds::All => (),
        Bounds::Range {
            least,
            greatest,
            ..
        } => {
            note_at(first, decl, least.place(), value_fault(scope, least));
            note_at(first, decl, greatest.place(), value_fault(scope, greatest));
        }
        Bounds::Set { values, .. } => note_values_faults(scope, decl, values.as_slice(), first),
    }
}

// Notes what is wrong with each of the values, of whatever kind they are.
#[tactic(auto, using(nddl_symbols::proofs::Earliest::earliest_append))]
fn note_values_faults(scope: &Scope, decl: usize, values: &[Value], first: &mut Option<Fault>)
    ensures { first.new ≡ earliest_fault first.old (values_faults scope.now decl values.now) }
{
    for value in values {
        note_at(first, decl, value.place(), value_fault(scope, value));
    }
}
