//! A problem with rules, rejectables, a fact and resources, built by hand: `Mission.antt` has it as text.

ghost use Rattle.std.specs.Prelude.{◌≡◌, [], ◌∷◌, IfOk};
ghost use Rattle.domain_core.specs.Domain.{Set};
ghost use Rattle.model_core.specs.declared.variable.Base.TheVariants.{Given};
ghost use Rattle.model_core.specs.Lawful.{IsLawful};
ghost use Rattle.tests_samples.specs.Mission.{mission_mode, mission_globals, mission_at, mission_act, mission_then, mission_otherwise, mission_rule, mission_items, mission};

use super::pieces::{alone_on, at_most, class, listed, object, one, only_one, ranged, root, with};
use domain_core::kind::Kind;
use eu_name::name::Part;
use eu_name::sequence::Sequence;
use eu_name::text::Text;
use model_core::class::{Class, Enum, Object, ObjectKind, Pred, PredKind};
use model_core::item::{Item, Rel, Term};
use model_core::model::{Model, Problem, Root, RootKind};
use model_core::rule::{Block, Entry, Guard, Rule, Slot};
use model_core::variable::{Base, ValueKind, VarDecl};
use std::alloc::{AllocError, Global};

fn members(alloc: Global) -> Result<Sequence<Text>, AllocError>
    ensures { IfOk result (λ members. members ≡ mission_mode.members) }
{
    let members = only_one(alloc, Text::from_str(alloc, "slow"));
    with(members, Text::from_str(alloc, "fast"))
}

fn enums(alloc: Global) -> Result<Sequence<Enum>, AllocError>
    ensures { IfOk result (λ enums. enums ≡ mission.enums) }
{
    let mode = Enum {
        name: Text::from_str(alloc, "Mode")?,
        members: members(alloc)?,
    };
    one(alloc, mode)
}

fn classes(alloc: Global) -> Result<Sequence<Class>, AllocError>
    ensures { IfOk result (λ classes. classes ≡ mission.classes) }
{
    let classes = only_one(alloc, class(alloc, "Rover"));
    with(with(classes, class(alloc, "Arm")), class(alloc, "Cell"))
}

fn objects(alloc: Global) -> Result<Sequence<Object>, AllocError>
    ensures { IfOk result (λ objects. objects ≡ mission.objects) }
{
    let cell = ObjectKind::Reservoir {
        initial: 5,
        low: 0,
        high: 10,
    };
    let objects = only_one(alloc, object(alloc, "spirit", 0, ObjectKind::Timeline));
    let objects = with(objects, object(alloc, "twin", 0, ObjectKind::Timeline));
    let objects = with(
        objects,
        object(alloc, "arm", 1, ObjectKind::Reusable { capacity: 2 }),
    );
    with(objects, object(alloc, "cell", 2, cell))
}

fn at(alloc: Global) -> Result<Pred, AllocError>
    ensures { IfOk result (λ pred. pred ≡ mission_at) }
{
    Ok(Pred {
        class: 0,
        name: Text::from_str(alloc, "At")?,
        params: only_one(alloc, ranged(alloc, "place", 3))?,
        kind: PredKind::Plain,
        rules: one(alloc, 0)?,
    })
}

// What is done to a resource.
fn act(alloc: Global, class: u32, name: &str, kind: PredKind) -> Result<Pred, AllocError>
    ensures { IfOk result (λ pred. pred ≡ mission_act class name.now kind) }
{
    Ok(Pred {
        class,
        name: Text::from_str(alloc, name)?,
        params: only_one(alloc, ranged(alloc, "quantity", 1000000))?,
        kind,
        rules: Sequence::new(alloc),
    })
}

fn preds(alloc: Global) -> Result<Sequence<Pred>, AllocError>
    ensures { IfOk result (λ preds. preds ≡ mission.preds) }
{
    let preds = only_one(alloc, at(alloc));
    let preds = with(preds, act(alloc, 1, "uses", PredKind::Uses));
    let preds = with(preds, act(alloc, 2, "produce", PredKind::Produce));
    with(preds, act(alloc, 2, "consume", PredKind::Consume))
}

// What opens where the place is 3.
fn then(alloc: Global) -> Result<Block, AllocError>
    ensures { IfOk result (λ block. block ≡ mission_then) }
{
    let terms = vec![in alloc; Term::Local(0), Term::Slot(1, Part::Param(0))]?;
    let item = Item::Constraint(Kind::Leq, Sequence::from_vec(terms));
    let entries = vec![in alloc; Entry::Local(0), Entry::Item(item)]?;
    Ok(Block { entries })
}

// What opens where it isn't.
fn otherwise(alloc: Global) -> Result<Block, AllocError>
    ensures { IfOk result (λ block. block ≡ mission_otherwise) }
{
    let entries = vec![in alloc; Entry::Slot(0), Entry::Item(Item::Relation(Rel::After, 0))]?;
    Ok(Block { entries })
}

fn top(alloc: Global) -> Result<Block, AllocError>
    ensures { IfOk result (λ block. block ≡ mission_rule.top) }
{
    let branch = Entry::Branch {
        guard: Guard::Equal(Term::Here(Part::Param(0)), Term::Lit(3)),
        then: then(alloc)?,
        otherwise: otherwise(alloc)?,
    };
    let use_of = Entry::Item(Item::Relation(Rel::Equals, 1));
    let entries = vec![in alloc; Entry::Slot(1), use_of, branch]?;
    Ok(Block { entries })
}

// A token of the predicate, on the one object.
fn slot(alloc: Global, pred: u32, object: i32) -> Result<Slot, AllocError>
    ensures { IfOk result (λ slot. slot ≡ record { pred = pred; object = Given (Set (object ∷ [])) }) }
{
    Ok(Slot {
        pred,
        object: Base::Given(alone_on(alloc, object)?),
    })
}

fn slots(alloc: Global) -> Result<Sequence<Slot>, AllocError>
    ensures { IfOk result (λ slots. slots ≡ mission_rule.slots) }
{
    with(only_one(alloc, slot(alloc, 0, 0)), slot(alloc, 1, 2))
}

fn rules(alloc: Global) -> Result<Sequence<Rule>, AllocError>
    ensures { IfOk result (λ rules. rules ≡ mission.rules) }
{
    let rule = Rule {
        top: top(alloc)?,
        slots: slots(alloc)?,
        locals: only_one(alloc, ranged(alloc, "", 9))?,
    };
    one(alloc, rule)
}

fn roots(alloc: Global) -> Result<Sequence<Root>, AllocError>
    ensures { IfOk result (λ roots. roots ≡ mission.problem.roots) }
{
    let roots = only_one(alloc, root(alloc, "base", RootKind::Fact, 0, 0));
    let roots = with(roots, root(alloc, "here", RootKind::Goal, 0, 0));
    let roots = with(roots, root(alloc, "there", RootKind::Rejectable, 0, 1));
    let roots = with(roots, root(alloc, "drill", RootKind::Rejectable, 1, 2));
    let roots = with(roots, root(alloc, "sun", RootKind::Rejectable, 2, 3));
    with(roots, root(alloc, "work", RootKind::Rejectable, 3, 3))
}

fn globals(alloc: Global) -> Result<Sequence<VarDecl>, AllocError>
    ensures { IfOk result (λ globals. globals ≡ mission_globals) }
{
    let globals = only_one(alloc, ranged(alloc, "total", 10));
    let globals = with(globals, ranged(alloc, "!1", 5));
    let globals = with(globals, listed(alloc, "mode", ValueKind::Enum(0)));
    with(globals, listed(alloc, "on", ValueKind::Bool))
}

fn items(alloc: Global) -> Result<Sequence<Item>, AllocError>
    ensures { IfOk result (λ items. items ≡ mission_items) }
{
    let items = only_one(alloc, at_most(alloc, Term::Global(0), Term::Lit(5)));
    with(
        items,
        at_most(
            alloc,
            Term::Root(3, Part::Start),
            Term::Root(2, Part::Start),
        ),
    )
}

fn problem(alloc: Global) -> Result<Problem, AllocError>
    ensures { IfOk result (λ problem. problem ≡ mission.problem) }
{
    Ok(Problem {
        start: 0,
        end: 10,
        steps: 100,
        roots: roots(alloc)?,
        globals: globals(alloc)?,
        items: items(alloc)?,
        decisions: Sequence::new(alloc),
    })
}

// The whole problem, as the text has it.
fn built(alloc: Global) -> Result<Model, AllocError>
    ensures { IfOk result (λ model. model ≡ mission) }
{
    Ok(Model {
        enums: enums(alloc)?,
        classes: classes(alloc)?,
        objects: objects(alloc)?,
        preds: preds(alloc)?,
        rules: rules(alloc)?,
        problem: problem(alloc)?,
    })
}

/// The whole problem, which is lawful.
pub fn mission(alloc: Global) -> Result<Model, AllocError>
    ensures { IfOk result IsLawful }
{
    built(alloc)
}
