//! What objects are made by.

ghost use Rattle.nddl_hierarchy.specs.Facts.{facts_of};
ghost use Rattle.nddl_construction.specs.Kept.{AreFieldTypes};
ghost use Rattle.nddl_construction.specs.Builders.{AreBuilders};
ghost use Rattle.nddl_construction.proofs.Props.{builders_prop};

use nddl_construction::{Builders, FieldTypes, Ground};
use nddl_hierarchy::Basis;

/// What is known of a program before its objects are made, and what is found once of its classes: what the types of fields
/// mean, as far as that is kept, and what of the constructors is the same for all objects.
#[derive(Clone, Copy)]
pub struct ClassFindings<'a> {
    pub basis: Basis<'a>,
    pub types: &'a FieldTypes,
    pub builders: &'a Builders<'a>,
    ghost are_types: { AreFieldTypes (facts_of basis) types.now },
    ghost are_builders: { AreBuilders (facts_of basis) builders.now } by { builders_prop (facts_of basis) builders.now },
}

/// What is at hand while objects are made: beside what is found once of the classes, what the names stand for by now.
#[derive(Clone, Copy)]
pub struct Blueprint<'a> {
    pub footing: Ground<'a>,
    pub types: &'a FieldTypes,
    pub builders: &'a Builders<'a>,
    ghost are_types: { AreFieldTypes (facts_of footing.basis) types.now },
    ghost are_builders: { AreBuilders (facts_of footing.basis) builders.now } by { builders_prop (facts_of footing.basis) builders.now },
}
