//! Classes and typedefs that are their own ancestors.

ghost use Rattle.std.specs.Prelude.{◌≡◌};
ghost use Rattle.nddl_symbols.specs.Finding.{earliest_fault};
ghost use Rattle.nddl_hierarchy.specs.Lines.{circle_fault, circle_faults, declared_place, is_circle, is_rooted};

use eu_forest::{Lineage, Rootedness};
use nddl_ast::TextKind;
use nddl_symbols::{Declared, Fault, Place, Scope, note_at};

/// Notes each class and each typedef that is its own ancestor.
#[tactic(auto, using(nddl_symbols::proofs::Earliest::earliest_append))]
pub fn note_circles(scope: &Scope, lineage: &Lineage, first: &mut Option<Fault>)
    ensures { first.new ≡ earliest_fault first.old
        (circle_faults scope.now lineage.now.marks.items 0 scope.now) }
{
    let names = scope.names();
    for (number, declared) in names.iter().enumerate() {
        let circle = is_circle(lineage.rootedness(number));
        note_circle(declared_place(scope, declared), circle, first);
    }
}

// Notes that what is declared there is its own ancestor, if it is.
fn note_circle(place: Option<Place>, circle: bool, first: &mut Option<Fault>)
    ensures { first.new ≡ earliest_fault first.old (circle_fault place circle) }
{
    if let Some(place) = place {
        if circle {
            note_at(first, place.decl, place.at, Some(TextKind::WrongType));
        }
    }
}

/// Whether it stands on a circle.
pub fn is_circle(rootedness: Option<Rootedness>) -> bool
    ensures { result ≡ is_circle rootedness }
{
    match rootedness {
        Some(Rootedness::OnCircle) => true,
        _ => false,
    }
}

/// Whether it leads up to what stands under nothing.
pub fn is_rooted(rootedness: Option<Rootedness>) -> bool
    ensures { result ≡ is_rooted rootedness }
{
    match rootedness {
        Some(Rootedness::Rooted) => true,
        _ => false,
    }
}

// Where a class or a typedef is declared: a class with its members.
fn declared_place(scope: &Scope, declared: &Declared) -> Option<Place>
    ensures { result ≡ declared_place scope.now declared.now }
{
    if declared.sort.is_class() {
        let body = scope.body(&declared.name)?;
        Some(scope.names().get(body)?.place)
    } else {
        Some(declared.place)
    }
}
