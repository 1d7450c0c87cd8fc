//! Whether items are about roots.

ghost use Rattle.std.specs.Prelude.{◌↔◌, IsTrue};
ghost use Rattle.db_decide.specs.RootItems.{IsPartOfRoot, NamePartOfRoot, IsAboutRoot};

use model_core::item::{Item, Term};

// Whether the term is a part of the root of this number.
fn is_part_of_root(term: Term, root: u32) -> bool
    ensures { IsTrue result ↔ IsPartOfRoot root term }
{
    match term {
        Term::Root(number, _) => number == root,
        _ => false,
    }
}

// Whether one of the terms is a part of the root of this number.
fn name_part_of_root(terms: &[Term], root: u32) -> bool
    ensures { IsTrue result ↔ NamePartOfRoot root terms.now }
{
    for term in terms {
        if is_part_of_root(*term, root) {
            return true;
        }
    }
    false
}

/// Whether the item is about a part of the root of this number.
pub fn is_about_root(item: &Item, root: u32) -> bool
    ensures { IsTrue result ↔ IsAboutRoot root item.now }
{
    match item {
        Item::Constraint(_, terms) => name_part_of_root(terms.as_slice(), root),
        Item::Relation(_, _) => false,
    }
}
