//! Which side of a guard opens.

ghost use Rattle.std.specs.Prelude.{◌≡◌, ◌↔◌, ◌<◌, Bool, Some, List, length, IsTrue, IfOk};
ghost use Rattle.domain_core.specs.Domain.{Range, IsValue};
ghost use Rattle.model_core.specs.declared.decision.Decision.{Decision};
ghost use Rattle.model_core.specs.Decided.{IsTaken};
ghost use Rattle.rule_engine.specs.Guards.{asks_equal};
ghost use Rattle.model_core.specs.declared.rule.Side.{Side as Way};
ghost use Rattle.token_store.specs.Tokens.{tokens_now};
ghost use Rattle.constraint_net.specs.Arguments.{IsArgument, domain_of};
ghost use Rattle.constraint_net.specs.declared.constraint.NetArg.TheVariants.{Var};
ghost use Rattle.plan_defs.specs.Situations.{situation_of};
ghost use Rattle.plan_defs.specs.Support.{one_side, other_side, side_when};
ghost use Rattle.model_core.specs.Content.{shown};
ghost use Rattle.db_refine.specs.Coming.{IsTermThere};
ghost use Rattle.db_store.specs.Stores.{snapshot_of};
ghost use Rattle.db_posting.specs.Counting.{AreTokenStates, AreRootsThere, TermCounts};
ghost use Rattle.db_posting.specs.Origins.{content_now, origin_context, IsOriginBelow};
ghost use Rattle.db_posting.specs.Terms.{CanStand};
ghost use Rattle.db_fixpoint.specs.Guards.{IsTruth, OpensOnly};

use constraint_net::{Net, NetArg};
use db_posting::{Origin, argument_of, term_counts};
use db_store::Store;
use domain_core::domain::Dom;
use model_core::item::Term;
use model_core::model::Model;
use model_core::rule::{Guard, Side};
use rule_engine::entailed;
use std::alloc::{AllocError, Global};

// What a guard compares, and whether it asks that the two are equal.
#[derive(Clone, Copy)]
pub struct Compared {
    pub equal: bool,
    pub one: Term,
    pub other: Term,
}

// The parts of the guard.
pub fn parts_of(guard: Guard) -> Compared
    ensures equal { asks_equal guard ≡ result.equal }
    ensures one { result.one ≡ one_side guard }
    ensures other { result.other ≡ other_side guard }
{
    match guard {
        Guard::Equal(one, other) => Compared {
            equal: true,
            one,
            other,
        },
        Guard::Differ(one, other) => Compared {
            equal: false,
            one,
            other,
        },
    }
}

// The domain that has this value alone.
fn only(value: i32) -> Dom
    requires { IsValue value }
    ensures { result ≡ Range value value }
{
    match Dom::range(value, value) {
        Some(domain) => domain,
        None => unreachable!(),
    }
}

// The domain of the variable of this number.
fn domain_at(net: &Net, variable: usize) -> &Dom
    requires { variable < length net.now.domains }
    ensures { result.now ≡ domain_of net.now.domains (Var variable) }
{
    match net.get(variable) {
        Some(domain) => domain,
        None => unreachable!(),
    }
}

// The truth of a guard on the domain and that of the argument.
fn truth_with(net: &Net, equal: bool, one: &Dom, other: NetArg) -> Option<bool>
    requires { IsArgument (length net.now.domains) other }
    ensures { IsTruth equal one.now (domain_of net.now.domains other) result }
{
    match other {
        NetArg::Var(variable) => entailed(equal, one, domain_at(net, variable)),
        NetArg::Lit(value) => entailed(equal, one, &only(value)),
    }
}

// The truth of a guard on the two arguments.
fn truth_of(net: &Net, equal: bool, one: NetArg, other: NetArg) -> Option<bool>
    requires one { IsArgument (length net.now.domains) one }
    requires other { IsArgument (length net.now.domains) other }
    ensures { IsTruth equal (domain_of net.now.domains one) (domain_of net.now.domains other) result }
{
    match one {
        NetArg::Var(variable) => truth_with(net, equal, domain_at(net, variable), other),
        NetArg::Lit(value) => truth_with(net, equal, &only(value), other),
    }
}

// The side that opens where the guard has this truth.
fn side_of(truth: Option<bool>) -> Option<Side>
    ensures { (side : Way) → (result ≡ Some side) ↔ ((found : Bool) × (truth ≡ Some found) × (side_when found ≡ side)) }
{
    match truth {
        Some(true) => Some(Side::Then),
        Some(false) => Some(Side::Otherwise),
        None => None,
    }
}

// Whether what is said of both terms counts.
fn both_count(
    alloc: Global,
    model: &Model,
    store: &Store,
    origin: Origin,
    one: Term,
    other: Term,
) -> bool
    requires origin { IsOriginBelow (length (tokens_now store.now.past)) origin }
    requires roots { AreRootsThere model.now (content_now store.now) }
    ensures { (decisions : List Decision) → AreTokenStates model.now decisions (snapshot_of store.now)
        → (IsTrue result ↔ (let context = origin_context (content_now store.now).tokens origin in
        TermCounts model.now (IsTaken decisions) context one × TermCounts model.now (IsTaken decisions) context other)) }
{
    term_counts(alloc, model, store, origin, one) && term_counts(alloc, model, store, origin, other)
}

/// The side of the guard whose block opens where the guard stands. None where neither does.
pub fn open_side(
    alloc: Global,
    model: &Model,
    store: &Store,
    origin: Origin,
    guard: Guard,
) -> Result<Option<Side>, AllocError>
    requires origin { IsOriginBelow (length (tokens_now store.now.past)) origin }
    requires roots { AreRootsThere model.now (content_now store.now) }
    requires one_stands { CanStand (origin_context (content_now store.now).tokens origin) (one_side guard) }
    requires other_stands { CanStand (origin_context (content_now store.now).tokens origin) (other_side guard) }
    requires one_there { let content = content_now store.now in
        IsTermThere content (origin_context content.tokens origin) (one_side guard) }
    requires other_there { let content = content_now store.now in
        IsTermThere content (origin_context content.tokens origin) (other_side guard) }
    ensures { IfOk result (λ found. (decisions : List Decision)
        → AreTokenStates model.now decisions (snapshot_of store.now)
        → let content = content_now store.now in
        OpensOnly model.now (situation_of decisions (shown content)) (origin_context content.tokens origin) guard found) }
{
    store.is_sound();
    let Compared { equal, one, other } = parts_of(guard);
    if !both_count(alloc, model, store, origin, one, other) {
        return Ok(None);
    }
    let one = argument_of(alloc, store, origin, one)?;
    let other = argument_of(alloc, store, origin, other)?;
    Ok(side_of(truth_of(store.net(), equal, one, other)))
}
