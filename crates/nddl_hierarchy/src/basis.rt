//! What is known of a program where its types are read.

ghost use Rattle.std.specs.Prelude.{◌≡◌, map};
ghost use Rattle.nddl_hierarchy.specs.Lines.{parents_of};
ghost use Rattle.nddl_hierarchy.specs.Shorter.{AreShorter};

use super::members::MemberIndex;
use super::shorter::ShortLines;
use eu_forest::{Lineage, Parents};
use nddl_ast::declaration::Decl;
use nddl_typeexpr::Types;

/// What types stand on, the declarations with the members of their classes, what the names stand under, and how, and what
/// classes stand under where some are passed over.
#[derive(Clone, Copy)]
pub struct Basis<'a> {
    pub types: Types<'a>,
    pub decls: &'a [&'a Decl],
    pub members: &'a MemberIndex<'a>,
    pub parents: &'a Parents,
    pub lineage: &'a Lineage,
    pub short: &'a ShortLines,
    ghost are_parents: { parents.now ≡ parents_of types.scope.now (map (λ decl. decl.now) decls.now) },
    ghost are_members: { members.now ≡ map (λ decl. decl.now) decls.now },
    ghost are_shorter: { AreShorter types.scope.now (map (λ decl. decl.now) decls.now) parents.now
        lineage.now.marks.items short.now },
}
