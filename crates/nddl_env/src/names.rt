//! What the names of the files stand for.

ghost use Rattle.std.specs.Prelude.{◌≡◌, ◌+◌, ◌++◌, IfOk, OnOk, if◌then◌else◌, pos};
ghost use Rattle.std.specs.Option.{option_copied};
ghost use Rattle.model_core.specs.declared.item.Term.TheVariants as terms;
ghost use Rattle.model_core.specs.declared.variable.ValueKind.TheVariants as values;
ghost use Rattle.nddl_symbols.specs.declared.scope.Meaning.TheVariants as meanings;
ghost use Rattle.nddl_symbols.specs.Names.{is_global_sort, is_root_sort};
ghost use Rattle.nddl_types.specs.Classes.{class_number};
ghost use Rattle.nddl_terms.specs.declared.stands.Stand.TheVariants as stands;
ghost use Rattle.nddl_env.specs.Lexicons.{asked_name, denoted_class, denoted_kind, name_stand, object_stand, pred_shapes, root_of_class, root_stand, scope_stands, sort_stand, stand_if_first, token_class};
ghost use Rattle.nddl_env.specs.Shapes.{world_of};

use super::objects::made_object;
use super::premises::Premises;
use super::shapes::kind_class;
use eu_name::sequence::Sequence;
use model_core::item::Term;
use model_core::variable::ValueKind;
use nddl_ast::declaration::Decl;
use nddl_ast::name::Name;
use nddl_ast::path::last;
use nddl_construction::reading::named_object_at;
use nddl_declarations::domains::value_kind;
use nddl_declarations::values::value_at;
use nddl_hierarchy::decls::decl_at;
use nddl_resolve::Denoted;
use nddl_resolve::files::file_denoted;
use nddl_symbols::{Declared, Meaning, Sort};
use nddl_terms::lexicon::{Lexicon, as_number};
use nddl_terms::stands::Stand;
use nddl_types::numbers::{class_number, is_first};
use std::alloc::{AllocError, Global};

// Where a name stands in the scope: its number, and how many globals and roots come before it.
#[derive(Clone, Copy)]
struct Position {
    number: usize,
    globals: u32,
    roots: u32,
}

// The kind of what a name means, if that is a value.
fn denoted_kind(meant: Option<Denoted>) -> ValueKind
    ensures { result ≡ denoted_kind meant }
{
    match meant {
        Some(Denoted::Value { kind, .. }) => value_kind(kind),
        _ => ValueKind::Int,
    }
}

// The declared class of what a name means, if that is an object.
fn denoted_class(premises: &Premises<'_>, meant: Option<Denoted>) -> u32
    ensures { result ≡ denoted_class (world_of premises.now) meant }
{
    match meant {
        Some(Denoted::Value { kind, .. }) => kind_class(premises, kind),
        _ => 0,
    }
}

// The class of which the token is that a name means.
fn token_class(meant: Option<Denoted>) -> Option<Meaning>
    ensures { result ≡ token_class meant }
{
    match meant {
        Some(Denoted::Token(token)) => Some(token.class),
        _ => None,
    }
}

// The predicate of which the declaration asks for a token.
fn asked_name(decl: &Decl) -> Option<&Name>
    ensures { option_copied result ≡ asked_name decl.now }
{
    match decl {
        Decl::Ask(ask) => Some(last(&ask.path)),
        _ => None,
    }
}

// A root of this number, of the predicate of this name of the class.
fn root_of_class(
    premises: &Premises<'_>,
    lexicon: &Lexicon,
    number: u32,
    name: &Name,
    class: Meaning,
) -> Result<Stand, AllocError>
    requires { lexicon.now.preds ≡ pred_shapes (world_of premises.now) }
    ensures { IfOk result (λ stand. stand ≡ root_of_class (world_of premises.now) number name.now.text class) }
{
    let class = class_number(
        premises.sources.basis.types.scope,
        premises.sources.numbers,
        class,
    );
    match lexicon.pred_named(class, &name.text)? {
        Some(pred) => Ok(Stand::Root { number, pred }),
        None => Ok(Stand::Nothing),
    }
}

// The root of this number, whose label is declared there and means this.
fn root_stand(
    premises: &Premises<'_>,
    lexicon: &Lexicon,
    number: u32,
    declared: &Declared,
    meant: Option<Denoted>,
) -> Result<Stand, AllocError>
    requires { lexicon.now.preds ≡ pred_shapes (world_of premises.now) }
    ensures { IfOk result (λ stand. stand ≡ root_stand (world_of premises.now) number declared.now meant) }
{
    match decl_at(premises.sources.basis.decls, declared.place.decl) {
        Some(decl) => match (asked_name(decl), token_class(meant)) {
            (Some(name), Some(class)) => root_of_class(premises, lexicon, number, name, class),
            _ => Ok(Stand::Nothing),
        },
        None => Ok(Stand::Nothing),
    }
}

// What the object's name of this number stands for, which is declared as one of this class.
fn object_stand(premises: &Premises<'_>, entry: usize, class: u32) -> Result<Stand, AllocError>
    ensures { IfOk result (λ stand. stand ≡ object_stand (world_of premises.now) entry class) }
{
    match made_object(named_object_at(premises.named_objects, entry))? {
        Some(value) => Ok(Stand::Value {
            term: Term::Lit(value),
            kind: ValueKind::Object,
            class,
        }),
        None => Ok(Stand::Nothing),
    }
}

// What the member of this place of the enum stands for.
fn member_stand(of: u32, place: u32) -> Result<Stand, AllocError>
    ensures { IfOk result (λ stand. stand ≡ stands.Value (terms.Lit (pos place)) (values.Enum of) 0) }
{
    Ok(Stand::Value {
        term: Term::Lit(value_at(place as usize)?),
        kind: ValueKind::Enum(of),
        class: 0,
    })
}

// What the class of this name stands for.
fn class_stand(premises: &Premises<'_>, entry: usize) -> Stand
    ensures { result ≡ stands.Class (class_number premises.now.sources.basis.types.scope.now (meanings.Entry entry)) }
{
    Stand::Class(class_number(
        premises.sources.basis.types.scope,
        premises.sources.numbers,
        Meaning::Entry(entry),
    ))
}

// What the name at this position stands for, which means this.
fn sort_stand(
    premises: &Premises<'_>,
    lexicon: &Lexicon,
    position: Position,
    declared: &Declared,
    meant: Option<Denoted>,
) -> Result<Stand, AllocError>
    requires { lexicon.now.preds ≡ pred_shapes (world_of premises.now) }
    ensures { IfOk result (λ stand. stand ≡ sort_stand (world_of premises.now) position.number position.globals
        position.roots declared.now meant declared.now.sort) }
{
    match declared.sort {
        Sort::Member { of, place } => member_stand(of, place),
        Sort::Global => Ok(Stand::Value {
            term: Term::Global(position.globals),
            kind: denoted_kind(meant),
            class: denoted_class(premises, meant),
        }),
        Sort::Object => object_stand(premises, position.number, denoted_class(premises, meant)),
        Sort::Root => root_stand(premises, lexicon, position.roots, declared, meant),
        Sort::Forward | Sort::Body => Ok(class_stand(premises, position.number)),
        _ => Ok(Stand::Nothing),
    }
}

// What the name at this position stands for.
fn name_stand(
    alloc: Global,
    premises: &Premises<'_>,
    lexicon: &Lexicon,
    position: Position,
    declared: &Declared,
) -> Result<Stand, AllocError>
    requires { lexicon.now.preds ≡ pred_shapes (world_of premises.now) }
    ensures { IfOk result (λ stand. stand ≡ name_stand (world_of premises.now) position.number position.globals
        position.roots declared.now) }
{
    let meant = file_denoted(alloc, &premises.sources.basis, &declared.name)?;
    sort_stand(premises, lexicon, position, declared, meant)
}

// Puts what the name stands for behind the others, if nothing is declared under it before.
fn push_stand(
    alloc: Global,
    premises: &Premises<'_>,
    lexicon: &Lexicon,
    position: Position,
    declared: &Declared,
    stands: &mut Sequence<Stand>,
) -> Result<(), AllocError>
    requires { lexicon.now.preds ≡ pred_shapes (world_of premises.now) }
    ensures { OnOk result (stands.new ≡ stands.old ++ stand_if_first (world_of premises.now) position.number
        position.globals position.roots declared.now) }
{
    if is_first(
        premises.sources.basis.types.scope,
        position.number,
        declared,
    ) {
        stands.push(name_stand(alloc, premises, lexicon, position, declared)?)
    } else {
        Ok(())
    }
}

fn is_global(sort: Sort) -> bool
    ensures { result ≡ is_global_sort sort }
{
    match sort {
        Sort::Global => true,
        _ => false,
    }
}

fn is_root(sort: Sort) -> bool
    ensures { result ≡ is_root_sort sort }
{
    match sort {
        Sort::Root => true,
        _ => false,
    }
}

// One more, if this is one.
fn counted(count: u32, is_one: bool) -> Result<u32, AllocError>
    ensures { IfOk result (λ next. next ≡ (if is_one then count + 1 else count)) }
{
    if is_one {
        as_number(count as usize + 1)
    } else {
        Ok(count)
    }
}

/// What the names of the files stand for, each where it is declared first.
pub fn scope_stands(
    alloc: Global,
    premises: &Premises<'_>,
    lexicon: &Lexicon,
) -> Result<Sequence<Stand>, AllocError>
    requires { lexicon.now.preds ≡ pred_shapes (world_of premises.now) }
    ensures { IfOk result (λ stands. stands
        ≡ scope_stands (world_of premises.now) 0 0 0 premises.now.sources.basis.types.scope.now) }
{
    let mut stands = Sequence::new(alloc);
    let mut globals: u32 = 0;
    let mut roots: u32 = 0;
    let names = premises.sources.basis.types.scope.names();
    for (entry, declared) in names.iter().enumerate() {
        let position = Position {
            number: entry,
            globals,
            roots,
        };
        push_stand(alloc, premises, lexicon, position, declared, &mut stands)?;
        globals = counted(globals, is_global(declared.sort))?;
        roots = counted(roots, is_root(declared.sort))?;
    }
    Ok(stands)
}
