//! What a lexicon is made of.

ghost use Rattle.nddl_hierarchy.specs.Facts.{facts_of};
ghost use Rattle.std.specs.Prelude.{◌≡◌};
ghost use Rattle.nddl_env.specs.Listing.{populations};

use nddl_construction::{MadeObject, NamedObject};
use nddl_terms::Populations;
use nddl_types::Sources;

/// What is known of a program, the object of each of its names once all objects are made, and these, with those of each
/// class (`objects_by_class`).
#[derive(Clone, Copy)]
pub struct Premises<'a> {
    pub sources: Sources<'a>,
    pub named_objects: &'a [NamedObject],
    pub objects: &'a [MadeObject],
    pub by_class: &'a Populations,
    ghost are_listed: { by_class.now ≡ populations (facts_of sources.basis) objects.now },
}
