//! What is found out of joined declarations before any of their types is read.

ghost use Rattle.std.specs.Prelude.{◌≡◌, IfOk, map};
ghost use Rattle.nddl_hierarchy.specs.Facts.{facts_of};
ghost use Rattle.nddl_typeexpr.specs.declared.kind.Extent.TheVariants.{Whole};
ghost use Rattle.nddl_declarations.specs.Known.{AreFacts};
ghost use Rattle.nddl_types.specs.Grounds.{AreFound, AreLines, AreNames, facts_found, facts_in};

use crate::{class_entries, class_numbers};
use eu_forest::Lineage;
use nddl_ast::declaration::Decl;
use nddl_declarations::known_meanings;
use nddl_hierarchy::parents::parents_of;
use nddl_hierarchy::{Basis, MemberIndex, Parents, ShortLines};
use nddl_symbols::{Scope, declared_names};
use nddl_typeexpr::{Extent, TypeMeaning, Types};
use std::alloc::{AllocError, Global};

/// The names of a program, the numbers of those that are classes, and which class each name would be.
#[derive(Drop)]
pub struct Names {
    pub scope: Scope,
    pub entries: Vec<usize>,
    pub numbers: Vec<u32>,
}

/// What names stand under, and how, and what classes stand under where some are passed over.
#[derive(Drop)]
pub struct Lines {
    pub parents: Parents,
    pub lineage: Lineage,
    pub short: ShortLines,
}

/// The names of a program, their lines, what the typedefs mean, and what has all values.
#[derive(Drop)]
pub struct Findings {
    pub names: Names,
    pub lines: Lines,
    pub known: Vec<Option<TypeMeaning>>,
    pub whole: Extent,
}

impl Names {
    /// Of these declarations.
    pub fn of(alloc: Global, decls: &[&Decl]) -> Result<Names, AllocError>
        ensures { IfOk result (AreNames (map (λ decl. decl.now) decls.now)) }
    {
        let declared = declared_names(alloc, decls)?;
        let scope = Scope::of(alloc, declared)?;
        let entries = class_entries(alloc, &scope)?;
        let numbers = class_numbers(alloc, &scope)?;
        Ok(Names {
            scope,
            entries,
            numbers,
        })
    }
}

impl Lines {
    /// Of these names of the declarations.
    pub fn of(alloc: Global, scope: &Scope, decls: &[&Decl]) -> Result<Lines, AllocError>
        ensures { IfOk result (AreLines scope.now (map (λ decl. decl.now) decls.now)) }
    {
        let under = parents_of(alloc, scope, decls)?;
        let lineage = Lineage::of(alloc, under.as_slice())?;
        let parents = Parents::of(alloc, under, lineage.order())?;
        let short = ShortLines::of(alloc, scope, decls, parents.as_slice(), &lineage)?;
        Ok(Lines {
            parents,
            lineage,
            short,
        })
    }
}

impl Findings {
    /// Of these declarations, of whose members this is the index.
    pub fn of(
        alloc: Global,
        decls: &[&Decl],
        members: &MemberIndex<'_>,
    ) -> Result<Findings, AllocError>
        requires { members.now ≡ map (λ decl. decl.now) decls.now }
        ensures { IfOk result (AreFound (map (λ decl. decl.now) decls.now)) }
    {
        let names = Names::of(alloc, decls)?;
        let lines = Lines::of(alloc, &names.scope, decls)?;
        let known = find_meanings(alloc, &names.scope, decls, members, &lines)?;
        Ok(Findings {
            names,
            lines,
            known,
            whole: Extent::Whole,
        })
    }

    /// What is known of these declarations where their types are read.
    pub fn basis<'a>(&'a self, members: &'a MemberIndex<'a>) -> Basis<'a>
        requires { AreFound members.now self.now }
        ensures { facts_of result ≡ facts_found members.now self.now }
    {
        let types = Types {
            scope: &self.names.scope,
            known: self.known.as_slice(),
            whole: &self.whole,
        };
        Basis {
            types,
            decls: members.decls(),
            members,
            parents: &self.lines.parents,
            lineage: &self.lines.lineage,
            short: &self.lines.short,
        }
    }
}

// What the typedefs mean among the names.
fn find_meanings(
    alloc: Global,
    scope: &Scope,
    decls: &[&Decl],
    members: &MemberIndex<'_>,
    lines: &Lines,
) -> Result<Vec<Option<TypeMeaning>>, AllocError>
    requires members { members.now ≡ map (λ decl. decl.now) decls.now }
    requires lines { AreLines scope.now (map (λ decl. decl.now) decls.now) lines.now }
    ensures { IfOk result (λ known. AreFacts scope.now (map (λ decl. decl.now) decls.now)
        (facts_in scope.now (map (λ decl. decl.now) decls.now) lines.now known.items)) }
{
    let whole = Extent::Whole;
    meanings_along(alloc, &*scope, &*decls, &*members, &*lines, &whole)
}

// What the typedefs mean among the names, along these lines.
fn meanings_along<'a>(
    alloc: Global,
    scope: &'a Scope,
    decls: &'a [&'a Decl],
    members: &'a MemberIndex<'a>,
    lines: &'a Lines,
    whole: &'a Extent,
) -> Result<Vec<Option<TypeMeaning>>, AllocError>
    requires members { members.now ≡ map (λ decl. decl.now) decls.now }
    requires lines { AreLines scope.now (map (λ decl. decl.now) decls.now) lines.now }
    requires whole { whole.now ≡ Whole }
    ensures { IfOk result (λ known. AreFacts scope.now (map (λ decl. decl.now) decls.now)
        (facts_in scope.now (map (λ decl. decl.now) decls.now) lines.now known.items)) }
{
    let types = Types {
        scope,
        known: &[],
        whole,
    };
    let basis = Basis {
        types,
        decls,
        members,
        parents: &lines.parents,
        lineage: &lines.lineage,
        short: &lines.short,
    };
    known_meanings(alloc, &basis)
}
