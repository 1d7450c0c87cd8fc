//! Faults of a program, and which of them comes first.

ghost use Rattle.std.specs.Prelude.{◌≡◌, ◌||◌, ◌&&◌, ◌==◌, nat_lt};
ghost use Rattle.nddl_ast.specs.Kinds.{kind_rank};
ghost use Rattle.nddl_symbols.specs.Finding.{FindsEarliest, earlier_fault, earliest_fault, faults_here, is_fault_before};

use crate::Place;
use nddl_ast::TextKind;

/// What is wrong at a place in a program.
#[derive(Clone, Copy, Debug, PartialEq, Eq)]
pub struct Fault {
    pub place: Place,
    pub kind: TextKind,
}

impl Fault {
    /// Whether it comes before the other: by its place, and at one place by its kind.
    pub fn is_before(self, other: Fault) -> bool
        ensures { result ≡ is_fault_before self other }
    {
        self.place.decl < other.place.decl
            || (self.place.decl == other.place.decl && self.is_before_within(other))
    }

    // Whether it comes before the other within one declaration: by its byte, and at one byte by its kind.
    fn is_before_within(self, other: Fault) -> bool
        ensures { result ≡ (nat_lt self.place.at other.place.at || (self.place.at == other.place.at
            && nat_lt (kind_rank self.kind) (kind_rank other.kind))) }
    {
        self.place.at < other.place.at
            || (self.place.at == other.place.at && self.kind.rank() < other.kind.rank())
    }
}

/// Notes a fault, if it comes before the first one so far.
pub fn note(first: &mut Option<Fault>, fault: Fault)
    ensures { first.new ≡ earlier_fault first.old fault }
{
    match first {
        Some(found) => {
            if fault.is_before(*found) {
                *first = Some(fault);
            }
        }
        None => *first = Some(fault),
    }
}

/// Notes the fault of the kind at the byte of the declaration of this number, if there is a kind.
pub fn note_at(first: &mut Option<Fault>, decl: usize, at: u32, kind: Option<TextKind>)
    ensures { first.new ≡ earliest_fault first.old (faults_here decl at kind) }
{
    if let Some(kind) = kind {
        note(
            first,
            Fault {
                place: Place { decl, at },
                kind,
            },
        );
    }
}

/// A law: the earliest of faults is one of them, and none of them comes before it.
pub fn the_earliest_is_found()
    ensures { FindsEarliest }
{}
