//! Locals that stand for fields, as globals of the problem behind those that are declared.

ghost use Rattle.std.specs.Prelude.{◌≡◌, ◌++◌, ◌∷◌, [], IfOk, OnOk, codes, map};
ghost use Rattle.std.specs.Fmt.{decimal};
ghost use Rattle.nddl_instance.specs.Renumbered.{entry_item, field_global, field_globals, global_item, global_items, global_term};

use crate::decisions::global_behind;
use eu_name::sequence::Sequence;
use eu_name::text::Text;
use model_core::item::{Item, Term};
use model_core::rule::Entry;
use model_core::variable::VarDecl;
use nddl_terms::lexicon::copy_base;
use std::alloc::{AllocError, Global};

fn global_term(count: u32, term: Term) -> Result<Term, AllocError>
    ensures { IfOk result (λ made. made ≡ global_term count term) }
{
    match term {
        Term::Local(number) => Ok(Term::Global(global_behind(count, number)?)),
        _ => Ok(term),
    }
}

fn global_terms(alloc: Global, count: u32, terms: &[Term]) -> Result<Sequence<Term>, AllocError>
    ensures { IfOk result (λ made. made ≡ map (global_term count) terms.now) }
{
    let mut made = Sequence::new(alloc);
    for term in terms {
        made.push(global_term(count, *term)?)?;
    }
    Ok(made)
}

// The item, with globals in place of locals.
fn global_item(alloc: Global, count: u32, item: &Item) -> Result<Item, AllocError>
    ensures { IfOk result (λ made. made ≡ global_item count item.now) }
{
    match item {
        Item::Constraint(kind, terms) => {
            let terms = global_terms(alloc, count, terms.as_slice())?;
            Ok(Item::Constraint(*kind, terms))
        }
        Item::Relation(relation, slot) => Ok(Item::Relation(*relation, *slot)),
    }
}

// The item that the entry is.
fn entry_item(alloc: Global, count: u32, entry: &Entry) -> Result<Option<Item>, AllocError>
    ensures { IfOk result (λ item. item ≡ entry_item count entry.now) }
{
    match entry {
        Entry::Item(item) => Ok(Some(global_item(alloc, count, item)?)),
        _ => Ok(None),
    }
}

// Puts it behind the others, if there is one.
fn push_item(
    alloc: Global,
    count: u32,
    entry: &Entry,
    items: &mut Sequence<Item>,
) -> Result<(), AllocError>
    ensures { OnOk result (items.new ≡ items.old ++ global_items count (entry.now ∷ [])) }
{
    match entry_item(alloc, count, entry)? {
        Some(item) => items.push(item),
        None => Ok(()),
    }
}

/// The items among the entries, with globals in place of locals, behind so many others.
pub fn global_items(
    alloc: Global,
    count: u32,
    entries: &[Entry],
) -> Result<Sequence<Item>, AllocError>
    ensures { IfOk result (λ items. items ≡ global_items count entries.now) }
{
    let mut items = Sequence::new(alloc);
    for entry in entries {
        push_item(alloc, count, entry, &mut items)?;
    }
    Ok(items)
}

// The name of the global of this number that stands for a field.
fn field_name(alloc: Global, number: usize) -> Result<Text, AllocError>
    ensures { IfOk result (λ name. name ≡ codes "!" ++ decimal number) }
{
    let name = format!(in alloc; "!{number}")?;
    Ok(Text::from_string(name))
}

// The global of this number for a field.
fn field_global(alloc: Global, number: usize, local: &VarDecl) -> Result<VarDecl, AllocError>
    ensures { IfOk result (λ global. global ≡ field_global number local.now) }
{
    let name = field_name(alloc, number)?;
    let base = copy_base(&local.base)?;
    Ok(VarDecl {
        name,
        kind: local.kind,
        base,
    })
}

/// Puts the globals for the locals behind the others, of which there are so many.
pub fn push_fields(
    alloc: Global,
    count: u32,
    locals: &[VarDecl],
    globals: &mut Sequence<VarDecl>,
) -> Result<(), AllocError>
    ensures { OnOk result (globals.new ≡ globals.old ++ field_globals count locals.now) }
{
    for (place, local) in locals.iter().enumerate() {
        let number = count as usize + place;
        globals.push(field_global(alloc, number, local)?)?;
    }
    Ok(())
}
