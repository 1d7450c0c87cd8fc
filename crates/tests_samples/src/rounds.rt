//! A problem with three tokens of one track, and with tokens that ask for more of the same, built by hand: `Rounds.antt` has it
//! as text.

ghost use Rattle.std.specs.Prelude.{◌≡◌, [], ◌∷◌, IfOk};
ghost use Rattle.domain_core.specs.Domain.{Set};
ghost use Rattle.model_core.specs.declared.variable.Base.TheVariants.{Given};
ghost use Rattle.model_core.specs.Lawful.{IsLawful};
ghost use Rattle.tests_samples.specs.Rounds.{rounds_pred, rounds_block, rounds_rule, rounds_globals, rounds_roots, rounds};

use super::pieces::{alone_on, at_most, class, object, one, only_one, ranged, root, with};
use eu_name::sequence::Sequence;
use eu_name::text::Text;
use model_core::class::{Class, Object, ObjectKind, Pred, PredKind};
use model_core::item::{Item, Term};
use model_core::model::{Model, Problem, Root, RootKind};
use model_core::rule::{Block, Entry, Rule, Slot};
use model_core::variable::{Base, VarDecl};
use std::alloc::{AllocError, Global};

fn classes(alloc: Global) -> Result<Sequence<Class>, AllocError>
    ensures { IfOk result (λ classes. classes ≡ rounds.classes) }
{
    let classes = only_one(alloc, class(alloc, "Track"));
    with(with(classes, class(alloc, "Node")), class(alloc, "Ghost"))
}

fn objects(alloc: Global) -> Result<Sequence<Object>, AllocError>
    ensures { IfOk result (λ objects. objects ≡ rounds.objects) }
{
    let objects = only_one(alloc, object(alloc, "track", 0, ObjectKind::Timeline));
    with(objects, object(alloc, "node", 1, ObjectKind::Plain))
}

// A predicate without parameters, and with these rules.
fn pred(alloc: Global, class: u32, name: &str, rules: Sequence<u32>) -> Result<Pred, AllocError>
    ensures { IfOk result (λ pred. pred ≡ rounds_pred class name.now rules) }
{
    Ok(Pred {
        class,
        name: Text::from_str(alloc, name)?,
        params: Sequence::new(alloc),
        kind: PredKind::Plain,
        rules,
    })
}

// A predicate with one rule.
fn ruled(alloc: Global, class: u32, name: &str, rule: u32) -> Result<Pred, AllocError>
    ensures { IfOk result (λ pred. pred ≡ rounds_pred class name.now (rule ∷ [])) }
{
    pred(alloc, class, name, one(alloc, rule)?)
}

fn preds(alloc: Global) -> Result<Sequence<Pred>, AllocError>
    ensures { IfOk result (λ preds. preds ≡ rounds.preds) }
{
    let preds = only_one(alloc, pred(alloc, 0, "Run", Sequence::new(alloc)));
    let preds = with(preds, ruled(alloc, 1, "Link", 0));
    let preds = with(preds, ruled(alloc, 1, "Lost", 1));
    with(preds, pred(alloc, 2, "Sign", Sequence::new(alloc)))
}

fn block(alloc: Global) -> Result<Block, AllocError>
    ensures { IfOk result (λ block. block ≡ rounds_block) }
{
    let entries = vec![in alloc; Entry::Slot(0)]?;
    Ok(Block { entries })
}

// A rule that asks for one token of this predicate.
fn rule(alloc: Global, pred: u32, object: Base) -> Result<Rule, AllocError>
    ensures { IfOk result (λ rule. rule ≡ rounds_rule pred object) }
{
    Ok(Rule {
        top: block(alloc)?,
        slots: one(alloc, Slot { pred, object })?,
        locals: Sequence::new(alloc),
    })
}

// A rule that asks for a token on the object of this number.
fn rule_on(alloc: Global, pred: u32, object: i32) -> Result<Rule, AllocError>
    ensures { IfOk result (λ rule. rule ≡ rounds_rule pred (Given (Set (object ∷ [])))) }
{
    rule(alloc, pred, Base::Given(alone_on(alloc, object)?))
}

fn rules(alloc: Global) -> Result<Sequence<Rule>, AllocError>
    ensures { IfOk result (λ rules. rules ≡ rounds.rules) }
{
    with(
        only_one(alloc, rule_on(alloc, 1, 1)),
        rule(alloc, 3, Base::Void),
    )
}

fn roots(alloc: Global) -> Result<Sequence<Root>, AllocError>
    ensures { IfOk result (λ roots. roots ≡ rounds_roots) }
{
    let roots = only_one(alloc, root(alloc, "one", RootKind::Goal, 0, 0));
    let roots = with(roots, root(alloc, "two", RootKind::Goal, 0, 0));
    let roots = with(roots, root(alloc, "three", RootKind::Goal, 0, 0));
    let roots = with(roots, root(alloc, "link", RootKind::Goal, 1, 1));
    let roots = with(roots, root(alloc, "other", RootKind::Goal, 1, 1));
    with(roots, root(alloc, "lost", RootKind::Rejectable, 2, 1))
}

fn globals(alloc: Global) -> Result<Sequence<VarDecl>, AllocError>
    ensures { IfOk result (λ globals. globals ≡ rounds_globals) }
{
    let globals = only_one(alloc, ranged(alloc, "x", 10));
    with(
        with(globals, ranged(alloc, "y", 10)),
        ranged(alloc, "z", 10),
    )
}

fn items(alloc: Global) -> Result<Sequence<Item>, AllocError>
    ensures { IfOk result (λ items. items ≡ rounds.problem.items) }
{
    only_one(alloc, at_most(alloc, Term::Global(0), Term::Global(1)))
}

fn problem(alloc: Global) -> Result<Problem, AllocError>
    ensures { IfOk result (λ problem. problem ≡ rounds.problem) }
{
    Ok(Problem {
        start: 0,
        end: 10,
        steps: 100,
        roots: roots(alloc)?,
        globals: globals(alloc)?,
        items: items(alloc)?,
        decisions: Sequence::new(alloc),
    })
}

// The whole problem, as the text has it.
fn built(alloc: Global) -> Result<Model, AllocError>
    ensures { IfOk result (λ model. model ≡ rounds) }
{
    Ok(Model {
        enums: Sequence::new(alloc),
        classes: classes(alloc)?,
        objects: objects(alloc)?,
        preds: preds(alloc)?,
        rules: rules(alloc)?,
        problem: problem(alloc)?,
    })
}

/// The whole problem, which is lawful.
pub fn rounds(alloc: Global) -> Result<Model, AllocError>
    ensures { IfOk result IsLawful }
{
    built(alloc)
}
