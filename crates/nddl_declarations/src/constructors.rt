//! What is wrong with the constructors of a class.

ghost use Rattle.std.specs.Prelude.{◌≡◌, false};
ghost use Rattle.nddl_symbols.specs.Finding.{earliest_fault};
ghost use Rattle.nddl_hierarchy.specs.Shorter.{is_constructor};
ghost use Rattle.nddl_declarations.specs.Members.{constructor_fault, constructors_faults};

use nddl_ast::TextKind;
use nddl_ast::declaration::Member;
use nddl_ast::name::Name;
use nddl_symbols::{Fault, kind_if, note_at};

/// Notes each constructor that is a second one, or hasn't the name of its class.
#[tactic(auto, using(nddl_symbols::proofs::Earliest::earliest_append))]
pub fn note_constructors(decl: usize, class: &Name, members: &[Member], first: &mut Option<Fault>)
    ensures { first.new ≡ earliest_fault first.old (constructors_faults decl class.now false members.now) }
{
    let mut seen = false;
    for member in members {
        note_constructor(decl, class, seen, member, first);
        seen = seen || is_constructor(member);
    }
}

// Notes what is wrong with the member as a constructor, where there is one before it or not.
#[tactic(auto, using(nddl_symbols::proofs::Earliest::earliest_append))]
fn note_constructor(
    decl: usize,
    class: &Name,
    seen: bool,
    member: &Member,
    first: &mut Option<Fault>,
)
    ensures { first.new ≡ earliest_fault first.old (constructor_fault decl class.now seen member.now) }
{
    if let Member::Constructor { name, .. } = member {
        let is_own = name.text.as_str() == class.text.as_str();
        note_at(first, decl, name.at, kind_if(seen, TextKind::Twice));
        note_at(first, decl, name.at, kind_if(!is_own, TextKind::WrongType));
    }
}

fn is_constructor(member: &Member) -> bool
    ensures { result ≡ is_constructor member.now }
{
    match member {
        Member::Constructor { .. } => true,
        _ => false,
    }
}
