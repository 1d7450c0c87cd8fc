//! A small problem, built by hand: `Sample.antt` has it as text.

ghost use Rattle.std.specs.Prelude.{◌≡◌, [], ◌∷◌, IfOk, pos};
ghost use Rattle.domain_core.specs.Domain.{Range};
ghost use Rattle.model_core.specs.declared.variable.Base.TheVariants.{Given};
ghost use Rattle.model_core.specs.declared.variable.ValueKind.TheVariants.{Int};
ghost use Rattle.model_core.specs.Lawful.{IsLawful};
ghost use Rattle.tests_base.specs.Sample.{spirit_alone, coming, sample};

use domain_core::domain::Dom;
use eu_name::sequence::Sequence;
use eu_name::text::Text;
use model_core::class::{Class, Object, ObjectKind, Pred, PredKind};
use model_core::item::{Item, Rel};
use model_core::model::{Model, Problem, Root, RootKind};
use model_core::rule::{Block, Entry, Rule, Slot};
use model_core::variable::{Base, ValueKind, VarDecl};
use std::alloc::{AllocError, Global};

// A variable with a range from 0.
fn ranged(alloc: Global, name: &str, greatest: i32) -> Result<VarDecl, AllocError>
    ensures { IfOk result (λ variable. variable
        ≡ record { name = name.now; kind = Int; base = Given (Range (pos 0) greatest) }) }
{
    let Some(domain) = Dom::range(0, greatest) else {
        return Err(AllocError);
    };
    Ok(VarDecl {
        name: Text::from_str(alloc, name)?,
        kind: ValueKind::Int,
        base: Base::Given(domain),
    })
}

// The one object.
fn only(alloc: Global) -> Result<Dom, AllocError>
    ensures { IfOk result (λ domain. domain ≡ spirit_alone) }
{
    match Dom::set_of(alloc, &[0]) {
        Ok(domain) => Ok(domain),
        Err(_) => Err(AllocError),
    }
}

// The items of a list with one.
fn one<T: Drop>(alloc: Global, item: T) -> Result<Sequence<T>, AllocError>
    ensures { IfOk result (λ items. items ≡ item ∷ []) }
{
    let mut items = Sequence::new(alloc);
    items.push(item)?;
    Ok(items)
}

fn classes(alloc: Global) -> Result<Sequence<Class>, AllocError>
    ensures { IfOk result (λ classes. classes ≡ sample.classes) }
{
    let rover = Class {
        name: Text::from_str(alloc, "Rover")?,
        parent: None,
        fields: Sequence::new(alloc),
    };
    one(alloc, rover)
}

fn objects(alloc: Global) -> Result<Sequence<Object>, AllocError>
    ensures { IfOk result (λ objects. objects ≡ sample.objects) }
{
    let spirit = Object {
        name: Text::from_str(alloc, "spirit")?,
        class: 0,
        fields: Sequence::new(alloc),
        kind: ObjectKind::Plain,
    };
    one(alloc, spirit)
}

fn preds(alloc: Global) -> Result<Sequence<Pred>, AllocError>
    ensures { IfOk result (λ preds. preds ≡ sample.preds) }
{
    let place = ranged(alloc, "place", 3)?;
    let at = Pred {
        class: 0,
        name: Text::from_str(alloc, "At")?,
        params: one(alloc, place)?,
        kind: PredKind::Plain,
        rules: one(alloc, 0)?,
    };
    one(alloc, at)
}

// The token that the rule asks for.
fn from(alloc: Global) -> Result<Sequence<Slot>, AllocError>
    ensures { IfOk result (λ slots. slots ≡ coming.slots) }
{
    let from = Slot {
        pred: 0,
        object: Base::Given(only(alloc)?),
    };
    one(alloc, from)
}

// The local of the rule.
fn steps(alloc: Global) -> Result<Sequence<VarDecl>, AllocError>
    ensures { IfOk result (λ locals. locals ≡ coming.locals) }
{
    one(alloc, ranged(alloc, "", 9)?)
}

fn rules(alloc: Global) -> Result<Sequence<Rule>, AllocError>
    ensures { IfOk result (λ rules. rules ≡ sample.rules) }
{
    let item = Entry::Item(Item::Relation(Rel::Any, 0));
    let entries = vec![in alloc; Entry::Slot(0), item, Entry::Local(0)]?;
    let coming = Rule {
        top: Block { entries },
        slots: from(alloc)?,
        locals: steps(alloc)?,
    };
    one(alloc, coming)
}

fn roots(alloc: Global) -> Result<Sequence<Root>, AllocError>
    ensures { IfOk result (λ roots. roots ≡ sample.problem.roots) }
{
    let here = Root {
        label: Text::from_str(alloc, "here")?,
        kind: RootKind::Goal,
        pred: 0,
        object: only(alloc)?,
    };
    one(alloc, here)
}

fn globals(alloc: Global) -> Result<Sequence<VarDecl>, AllocError>
    ensures { IfOk result (λ globals. globals ≡ sample.problem.globals) }
{
    let mut globals = one(alloc, ranged(alloc, "total", 10)?)?;
    globals.push(ranged(alloc, "!1", 5)?)?;
    Ok(globals)
}

fn problem(alloc: Global) -> Result<Problem, AllocError>
    ensures { IfOk result (λ problem. problem ≡ sample.problem) }
{
    Ok(Problem {
        start: 0,
        end: 1000,
        steps: 1000,
        roots: roots(alloc)?,
        globals: globals(alloc)?,
        items: Sequence::new(alloc),
        decisions: Sequence::new(alloc),
    })
}

/// The whole problem, as the text has it.
pub fn built(alloc: Global) -> Result<Model, AllocError>
    ensures { IfOk result (λ model. model ≡ sample) }
{
    Ok(Model {
        enums: Sequence::new(alloc),
        classes: classes(alloc)?,
        objects: objects(alloc)?,
        preds: preds(alloc)?,
        rules: rules(alloc)?,
        problem: problem(alloc)?,
    })
}

/// The whole problem, which is lawful.
pub fn sample(alloc: Global) -> Result<Model, AllocError>
    ensures { IfOk result IsLawful }
{
    built(alloc)
}
