//! What a rule has, while its statements are dealt with one after another.

ghost use Rattle.std.specs.Prelude.{◌≡◌, ◌++◌, ◌∷◌, [], length, IfOk, OnOk};
ghost use Rattle.nddl_terms.specs.Growth.{no_growth, unnamed, with_access, with_last_entry, with_item, with_next_local, with_slot};

use super::lexicon::{Shape, as_number, copy_base};
use super::stands::Made;
use domain_core::kind::Kind;
use eu_name::sequence::Sequence;
use eu_name::text::Text;
use model_core::item::{Item, Term};
use model_core::rule::{Entry, Slot};
use model_core::variable::VarDecl;
use std::alloc::{AllocError, Global};

/// What a rule has so far.
#[derive(Drop)]
pub struct Growth {
    /// What was made of the locals of the text, in order: the latest comes last.
    pub named: Sequence<Made>,
    /// What was made of the slots of the text, in order.
    pub asked: Sequence<Made>,
    /// The locals, by number.
    pub locals: Sequence<VarDecl>,
    /// The slots, by number.
    pub slots: Sequence<Slot>,
    /// What stands in the block that is being filled.
    pub entries: Sequence<Entry>,
}

/// Two terms.
pub fn term_pair(alloc: Global, one: Term, other: Term) -> Result<Sequence<Term>, AllocError>
    ensures { IfOk result (λ terms. terms ≡ one ∷ other ∷ []) }
{
    let mut terms = Vec::new(alloc);
    terms.push(one)?;
    terms.push(other)?;
    Ok(Sequence::from_vec(terms))
}

/// A local of this shape, which has no name.
pub fn unnamed(alloc: Global, shape: &Shape) -> Result<VarDecl, AllocError>
    ensures { IfOk result (λ local. local ≡ unnamed shape.now) }
{
    let base = copy_base(&shape.base)?;
    Ok(VarDecl {
        name: Text::from_str(alloc, "")?,
        kind: shape.kind,
        base,
    })
}

impl Growth {
    /// Of a rule that has nothing.
    pub fn new(alloc: Global) -> Growth
        ensures { result ≡ no_growth }
    {
        Growth {
            named: Sequence::new(alloc),
            asked: Sequence::new(alloc),
            locals: Sequence::new(alloc),
            slots: Sequence::new(alloc),
            entries: Sequence::new(alloc),
        }
    }

    /// Puts an entry into the block.
    pub fn add_entry(&mut self, entry: Entry) -> Result<(), AllocError>
        ensures { OnOk result (self.new ≡ with_last_entry entry self.old) }
    {
        self.entries.push(entry)
    }

    /// Puts a constraint or a relation into the block.
    pub fn add_item(&mut self, item: Item) -> Result<(), AllocError>
        ensures { OnOk result (self.new ≡ with_item item self.old) }
    {
        self.entries.push(Entry::Item(item))
    }

    /// A local more, which stands in the block. Answers its number.
    pub fn add_local(&mut self, local: VarDecl) -> Result<u32, AllocError>
        ensures grown { OnOk result (self.new ≡ with_next_local local self.old) }
        ensures number { IfOk result (λ number. number ≡ length self.old.locals) }
    {
        let number = as_number(self.locals.len())?;
        self.locals.push(local)?;
        self.entries.push(Entry::Local(number))?;
        Ok(number)
    }

    /// A slot more, which stands in the block. Answers its number.
    pub fn add_slot(&mut self, slot: Slot) -> Result<u32, AllocError>
        ensures grown { OnOk result (self.new ≡ with_slot slot self.old) }
        ensures number { IfOk result (λ number. number ≡ length self.old.slots) }
    {
        let number = as_number(self.slots.len())?;
        self.slots.push(slot)?;
        self.entries.push(Entry::Slot(number))?;
        Ok(number)
    }

    /// A local for a field of the object that a variable is, and the item that ties the two. Answers its number.
    pub fn add_access(
        &mut self,
        alloc: Global,
        object: Term,
        field: u32,
        shape: &Shape,
    ) -> Result<u32, AllocError>
        ensures grown { OnOk result (self.new ≡ with_access object field shape.now self.old) }
        ensures number { IfOk result (λ number. number ≡ length self.old.locals) }
    {
        let local = unnamed(alloc, shape)?;
        let number = self.add_local(local)?;
        let terms = term_pair(alloc, object, Term::Local(number))?;
        self.add_item(Item::Constraint(Kind::Field(field), terms))?;
        Ok(number)
    }
}
