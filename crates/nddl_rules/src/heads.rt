//! Where the rules of texts are.

ghost use Rattle.std.specs.Prelude.{◌≡◌, map};
ghost use Rattle.nddl_rules.specs.Collected.{class_head, decl_head, member_head, rule_head, text_head};

use crate::TextPlace;
use nddl_ast::declaration::{Decl, Member};
use nddl_hierarchy::decls::decl_at;
use nddl_symbols::Place;

/// Where the rule at this place is: at its first name, or at that of the predicate in whose body it stands.
pub fn text_head(decls: &[&Decl], place: TextPlace) -> Place
    ensures { result ≡ text_head (map (λ decl. decl.now) decls.now) place }
{
    let at = match decl_at(decls, place.decl) {
        Some(decl) => decl_head(place.member, decl),
        None => 0,
    };
    Place {
        decl: place.decl,
        at,
    }
}

fn decl_head(member: Option<usize>, decl: &Decl) -> u32
    ensures { result ≡ decl_head member decl.now }
{
    match member {
        Some(place) => class_head(place, decl),
        None => rule_head(decl),
    }
}

// The first name of a rule that is a declaration of its own.
fn rule_head(decl: &Decl) -> u32
    ensures { result ≡ rule_head decl.now }
{
    match decl {
        Decl::Rule { class, .. } => class.at,
        _ => 0,
    }
}

// The name of the predicate that is the member of this place.
fn class_head(place: usize, decl: &Decl) -> u32
    ensures { result ≡ class_head place decl.now }
{
    match decl {
        Decl::Class { members, .. } => match members.as_slice().get(place) {
            Some(member) => member_head(member),
            None => 0,
        },
        _ => 0,
    }
}

fn member_head(member: &Member) -> u32
    ensures { result ≡ member_head member.now }
{
    match member {
        Member::Predicate { name, .. } => name.at,
        _ => 0,
    }
}
