//! Which arguments a class wants where an object of it is made.

ghost use Rattle.std.specs.Prelude.{◌≡◌, IfOk, map};
ghost use Rattle.nddl_hierarchy.specs.Facts.{facts_of};
ghost use Rattle.nddl_constructors.specs.Creations.{meaning_wants};
ghost use Rattle.nddl_constructors.specs.Wanted.{wanted_count, wanted_kinds};
ghost use Rattle.nddl_constructors.specs.Wants.{builtin_wants, class_wants, formal_kind, wanted_at};

use super::wants::{builtin_above, formals_above};
use nddl_ast::declaration::Typed;
use nddl_hierarchy::Basis;
use nddl_symbols::Meaning;
use nddl_typeexpr::TypeKind;
use nddl_typeexpr::base::base_kind;
use std::alloc::{AllocError, Global};

/// The arguments that a class wants. Many classes may extend one that wants many, so the kind of each is found where it is
/// asked for.
#[derive(Clone, Copy)]
pub enum Wanted<'a> {
    /// One for each of these formals of a constructor.
    Formals(&'a [Typed]),
    /// Those of a built-in class, which are of these kinds.
    BuiltIn(&'a [Option<TypeKind>]),
}

impl Wanted<'_> {
    /// How many there are.
    pub fn count(&self) -> usize
        ensures { result ≡ wanted_count self.now }
    {
        match self {
            Wanted::Formals(formals) => formals.len(),
            Wanted::BuiltIn(kinds) => kinds.len(),
        }
    }

    /// Of which kind the one at this place has to be, if it is known.
    pub fn kind(&self, basis: &Basis<'_>, number: usize) -> Option<TypeKind>
        ensures { result ≡ wanted_at (wanted_kinds (facts_of basis.now) self.now) number }
    {
        match self {
            Wanted::Formals(formals) => formal_kind_at(basis, *formals, number),
            Wanted::BuiltIn(kinds) => wanted_at(*kinds, number),
        }
    }

    /// The kinds of all of them.
    pub fn kinds(
        &self,
        alloc: Global,
        basis: &Basis<'_>,
    ) -> Result<Vec<Option<TypeKind>>, AllocError>
        ensures { IfOk result (λ kinds. kinds.items ≡ wanted_kinds (facts_of basis.now) self.now) }
    {
        match self {
            Wanted::Formals(formals) => formal_kinds(alloc, basis, *formals),
            Wanted::BuiltIn(kinds) => copied(alloc, *kinds),
        }
    }
}

/// The kinds of the arguments that the class wants, each if it is known.
pub fn class_wants(
    alloc: Global,
    basis: &Basis<'_>,
    class: Meaning,
) -> Result<Vec<Option<TypeKind>>, AllocError>
    ensures { IfOk result (λ wants. wants.items ≡ class_wants (facts_of basis.now) class) }
{
    let wanted = class_wanted(alloc, basis, class)?;
    wanted.kinds(alloc, basis)
}

/// The arguments that the class wants.
#[tactic(auto, unfolding(crate::specs::Wants::class_wants))]
pub fn class_wanted<'a>(
    alloc: Global,
    basis: &Basis<'a>,
    class: Meaning,
) -> Result<Wanted<'a>, AllocError>
    ensures { IfOk result (λ wanted. wanted_kinds (facts_of basis.now) wanted ≡ class_wants (facts_of basis.now) class) }
{
    match class {
        Meaning::BuiltIn(number) => Ok(Wanted::BuiltIn(builtin_wants(number))),
        Meaning::Entry(entry) => match formals_above(basis, entry) {
            Some(formals) => Ok(Wanted::Formals(formals.as_slice())),
            None => Ok(Wanted::BuiltIn(builtin_wants(builtin_above(alloc, basis, entry)?))),
        },
    }
}

/// The arguments that are wanted of what means this.
pub fn meaning_wanted<'a>(
    alloc: Global,
    basis: &Basis<'a>,
    meaning: Option<Meaning>,
) -> Result<Wanted<'a>, AllocError>
    ensures { IfOk result (λ wanted. wanted_kinds (facts_of basis.now) wanted ≡ meaning_wants (facts_of basis.now) meaning) }
{
    match meaning {
        Some(class) => class_wanted(alloc, basis, class),
        None => Ok(Wanted::BuiltIn(&[])),
    }
}

/// The kind that is wanted at this place.
pub fn wanted_at(wants: &[Option<TypeKind>], number: usize) -> Option<TypeKind>
    ensures { result ≡ wanted_at wants.now number }
{
    *wants.get(number)?
}

// The kind of the formal at this place.
fn formal_kind_at(basis: &Basis<'_>, formals: &[Typed], number: usize) -> Option<TypeKind>
    ensures { result ≡ wanted_at (map (formal_kind (facts_of basis.now)) formals.now) number }
{
    let typed = formals.get(number)?;
    base_kind(&basis.types, &typed.declared.base)
}

// The kinds of these formals.
fn formal_kinds(
    alloc: Global,
    basis: &Basis<'_>,
    formals: &[Typed],
) -> Result<Vec<Option<TypeKind>>, AllocError>
    ensures { IfOk result (λ wants. wants.items ≡ map (formal_kind (facts_of basis.now)) formals.now) }
{
    let mut wants = Vec::new(alloc);
    for typed in formals {
        wants.push(base_kind(&basis.types, &typed.declared.base))?;
    }
    Ok(wants)
}

fn copied(alloc: Global, kinds: &[Option<TypeKind>]) -> Result<Vec<Option<TypeKind>>, AllocError>
    ensures { IfOk result (λ copy. copy.items ≡ kinds.now) }
{
    let mut copy = Vec::new(alloc);
    for kind in kinds {
        copy.push(*kind)?;
    }
    Ok(copy)
}

// Of which kinds those are that the built-in class of this number wants.
fn builtin_wants<'a>(number: u32) -> &'a [Option<TypeKind>]
    ensures { result.now ≡ builtin_wants number }
{
    if number == 2 {
        &[Some(TypeKind::Int)]
    } else if number == 3 {
        &[
            Some(TypeKind::Int),
            Some(TypeKind::Int),
            Some(TypeKind::Int),
        ]
    } else {
        &[]
    }
}
