//! Models in memory of their own: equal ones, and those with an earlier end of the horizon.

ghost use Rattle.std.specs.Prelude.{◌≡◌, IfOk, Ok};
ghost use Rattle.model_core.specs.Horizon.{with_end, EarlierEndsAreLawful};

use super::class::{Class, Enum, Object, Pred};
use super::decision::Decision;
use super::item::{Item, Term};
use super::model::{Model, Placed, Problem, Root};
use super::rule::{Block, Entry, Rule, Slot};
use super::variable::{Base, VarDecl};
use domain_core::kind::Kind;
use eu_name::sequence::Sequence;
use eu_name::text::Text;
use std::alloc::{AllocError, Global};

impl Model {
    /// An equal model in memory of its own.
    pub fn copy(&self) -> Result<Model, AllocError>
        ensures { IfOk result (λ copied. copied ≡ self.now) }
    {
        let types = both(copy_all(&self.enums), copy_all(&self.classes));
        let tokens = both(copy_all(&self.preds), copy_all(&self.rules));
        let rest = both(copy_all(&self.objects), self.problem.copied());
        let ((enums, classes), ((preds, rules), (objects, problem))) = both(
            types,
            both(tokens, rest),
        )?;
        Ok(Model {
            enums,
            classes,
            objects,
            preds,
            rules,
            problem,
        })
    }

    /// The model with this end of its horizon, in memory of its own.
    pub fn with_end(&self, end: i32) -> Result<Model, AllocError>
        ensures { IfOk result (λ model. model ≡ with_end self.now end) }
    {
        let mut model = self.copy()?;
        model.problem.end = end;
        Ok(model)
    }
}

// What can be copied.
trait Copies {
    ghost use Rattle.std.specs.Prelude.{◌≡◌, IfOk};

    // An equal value in memory of its own.
    fn copied(&self) -> Result<Self, AllocError>
        ensures { IfOk result (λ copied. copied ≡ self.now) };
}

// An equal list in memory of its own.
fn copy_all<T: Copies + Drop>(items: &Sequence<T>) -> Result<Sequence<T>, AllocError>
    ensures { IfOk result (λ copied. copied ≡ items.now) }
{
    let mut copies = Sequence::new(items.allocator());
    for item in items.as_slice() {
        copies.push(item.copied()?)?;
    }
    Ok(copies)
}

// An equal list of what takes no memory.
fn copy_plain<T: Copy>(items: &Sequence<T>) -> Result<Sequence<T>, AllocError>
    ensures { IfOk result (λ copied. copied ≡ items.now) }
{
    let copies = Vec::from_slice(items.allocator(), items.as_slice())?;
    Ok(Sequence::from_vec(copies))
}

// Both, where both were made.
fn both<T: Drop, U: Drop>(
    one: Result<T, AllocError>,
    other: Result<U, AllocError>,
) -> Result<(T, U), AllocError>
    ensures { IfOk result (λ made. (one ≡ Ok made.0) × (other ≡ Ok made.1)) }
{
    match one {
        Ok(one) => match other {
            Ok(other) => Ok((one, other)),
            Err(error) => Err(error),
        },
        Err(error) => Err(error),
    }
}

impl Copies for Text {
    fn copied(&self) -> Result<Text, AllocError> {
        self.copy()
    }
}

impl Copies for Base {
    fn copied(&self) -> Result<Base, AllocError> {
        match self {
            Base::Given(domain) => Ok(Base::Given(domain.copy()?)),
            Base::Void => Ok(Base::Void),
        }
    }
}

impl Copies for VarDecl {
    fn copied(&self) -> Result<VarDecl, AllocError> {
        let (name, base) = both(self.name.copy(), self.base.copied())?;
        Ok(VarDecl {
            name,
            kind: self.kind,
            base,
        })
    }
}

impl Copies for Enum {
    fn copied(&self) -> Result<Enum, AllocError> {
        let (name, members) = both(self.name.copy(), copy_all(&self.members))?;
        Ok(Enum { name, members })
    }
}

impl Copies for Class {
    fn copied(&self) -> Result<Class, AllocError> {
        let (name, fields) = both(self.name.copy(), copy_all(&self.fields))?;
        Ok(Class {
            name,
            parent: self.parent,
            fields,
        })
    }
}

impl Copies for Object {
    fn copied(&self) -> Result<Object, AllocError> {
        let (name, fields) = both(self.name.copy(), copy_plain(&self.fields))?;
        Ok(Object {
            name,
            class: self.class,
            fields,
            kind: self.kind,
        })
    }
}

impl Copies for Pred {
    fn copied(&self) -> Result<Pred, AllocError> {
        let lists = both(copy_all(&self.params), copy_plain(&self.rules));
        let (name, (params, rules)) = both(self.name.copy(), lists)?;
        Ok(Pred {
            class: self.class,
            name,
            params,
            kind: self.kind,
            rules,
        })
    }
}

impl Copies for Item {
    fn copied(&self) -> Result<Item, AllocError> {
        match self {
            Item::Constraint(kind, arguments) => {
                Ok(Item::Constraint(*kind, copy_plain(arguments)?))
            }
            Item::Relation(relation, slot) => Ok(Item::Relation(*relation, *slot)),
        }
    }
}

impl Copies for Slot {
    fn copied(&self) -> Result<Slot, AllocError> {
        Ok(Slot {
            pred: self.pred,
            object: self.object.copied()?,
        })
    }
}

impl Copies for Rule {
    fn copied(&self) -> Result<Rule, AllocError> {
        let lists = both(copy_all(&self.slots), copy_all(&self.locals));
        let (top, (slots, locals)) = both(copy_block(&self.top), lists)?;
        Ok(Rule { top, slots, locals })
    }
}

// A copy of an entry, of a block, and of the entries in one.
#[cycle(copying)]
fn copy_entry(entry: &Entry) -> Result<Entry, AllocError>
    ensures { IfOk result (λ copied. copied ≡ entry.now) }
{
    match entry {
        Entry::Slot(number) => Ok(Entry::Slot(*number)),
        Entry::Local(number) => Ok(Entry::Local(*number)),
        Entry::Item(item) => Ok(Entry::Item(item.copied()?)),
        Entry::Branch {
            guard,
            then,
            otherwise,
        } => {
            let (then, otherwise) = both(copy_block(then), copy_block(otherwise))?;
            Ok(Entry::Branch {
                guard: *guard,
                then,
                otherwise,
            })
        }
    }
}

#[cycle(copying)]
fn copy_block(block: &Block) -> Result<Block, AllocError>
    ensures { IfOk result (λ copied. copied ≡ block.now) }
{
    let entries = copy_entries(*block.entries.allocator(), block.entries.as_slice())?;
    Ok(Block { entries })
}

#[cycle(copying)]
fn copy_entries(alloc: Global, entries: &[Entry]) -> Result<Vec<Entry>, AllocError>
    ensures { IfOk result (λ copied. copied.items ≡ entries.now) }
{
    let mut copies = Vec::new(alloc);
    for entry in entries {
        copies.push(copy_entry(entry)?)?;
    }
    Ok(copies)
}

impl Copies for Root {
    fn copied(&self) -> Result<Root, AllocError> {
        let (label, object) = both(self.label.copy(), self.object.copy())?;
        Ok(Root {
            label,
            kind: self.kind,
            pred: self.pred,
            object,
        })
    }
}

impl Copies for Placed {
    fn copied(&self) -> Result<Placed, AllocError> {
        let (decision, file) = both(self.decision.copy(), self.file.copy())?;
        Ok(Placed {
            decision,
            file,
            at: self.at,
        })
    }
}

impl Copies for Problem {
    fn copied(&self) -> Result<Problem, AllocError> {
        let posted = both(copy_all(&self.roots), copy_all(&self.globals));
        let stated = both(copy_all(&self.items), copy_all(&self.decisions));
        let ((roots, globals), (items, decisions)) = both(posted, stated)?;
        Ok(Problem {
            start: self.start,
            end: self.end,
            steps: self.steps,
            roots,
            globals,
            items,
            decisions,
        })
    }
}

/// A law: with an earlier end of its horizon a lawful model is lawful.
pub fn earlier_ends_are_lawful()
    ensures { EarlierEndsAreLawful }
{}
