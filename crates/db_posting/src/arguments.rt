//! Terms as arguments of constraints.

ghost use Rattle.std.specs.Prelude.{◌<◌, length, All, Contains, IfOk};
ghost use Rattle.std.specs.List.{AllZip};
ghost use Rattle.model_core.specs.Tokens.{root_token, slot_token};
ghost use Rattle.token_store.specs.Orders.{name_at};
ghost use Rattle.token_store.specs.Tokens.{tokens_now, token_names, IsNamedAt};
ghost use Rattle.plan_defs.specs.Claims.{part_of};
ghost use Rattle.plan_defs.specs.Terms.{InProblem, InRule, Variable};
ghost use Rattle.db_refine.specs.Claims.{IsNamedArgument};
ghost use Rattle.db_refine.specs.Coming.{IsTermThere};
ghost use Rattle.db_store.specs.Keys.{named_variable, IsKeyBelow};
ghost use Rattle.db_posting.specs.Origins.{content_now, origin_context, IsOriginBelow, argument_named};
ghost use Rattle.db_posting.specs.Terms.{CanStand, IsTermArgument, IsPartThere, HasPartAt};

use super::origin::{Origin, PartAt};
use constraint_net::NetArg;
use db_store::{Store, VarKey};
use eu_name::name::{Part, TokenName};
use eu_name::sequence::Sequence;
use model_core::item::Term;
use model_core::slot_names::slot_name;
use std::alloc::{AllocError, Global};
use token_store::Tokens;

/// The place of the token of this name.
pub fn place_of(tokens: &Tokens, name: &TokenName) -> u32
    requires { Contains (token_names (tokens_now tokens.now)) name.now }
    ensures { IsNamedAt (tokens_now tokens.now) result name.now }
{
    match tokens.find(name) {
        Some(place) => place,
        None => unreachable!(),
    }
}

/// The place of the root of this number. It takes no memory.
pub fn root_place(alloc: Global, tokens: &Tokens, number: u32) -> u32
    requires { Contains (token_names (tokens_now tokens.now)) (root_token number) }
    ensures { IsNamedAt (tokens_now tokens.now) result (root_token number) }
{
    let name = TokenName {
        root: number,
        steps: Sequence::new(alloc),
    };
    place_of(tokens, &name)
}

/// The place of the token that a rule of the token at this place asks for by its slot of this number.
pub fn slot_place(tokens: &Tokens, token: u32, rule: u16, slot: u16) -> Result<u32, AllocError>
    requires token { token < length (tokens_now tokens.now) }
    requires there { let names = token_names (tokens_now tokens.now) in
        Contains names (slot_token (name_at names token) rule slot) }
    ensures { IfOk result (λ place. let names = token_names (tokens_now tokens.now) in
        IsNamedAt (tokens_now tokens.now) place (slot_token (name_at names token) rule slot)) }
{
    match tokens.name(token) {
        Some(parent) => {
            let name = slot_name(parent, rule, slot)?;
            Ok(place_of(tokens, &name))
        }
        None => unreachable!(),
    }
}

// The variable of the key, as an argument.
fn variable_at(store: &Store, key: VarKey) -> NetArg
    requires below { IsKeyBelow (length (tokens_now store.now.past)) key }
    requires there { let content = content_now store.now in Contains content.names (named_variable content.tokens key) }
    ensures { let content = content_now store.now in
        IsNamedArgument content.names (Variable (named_variable content.tokens key)) result }
{
    store.is_sound();
    match store.find_variable(key) {
        Some(number) => NetArg::Var(number),
        None => unreachable!(),
    }
}

/// The part of a token, as an argument.
pub fn part_argument(store: &Store, at: PartAt) -> NetArg
    requires { HasPartAt store.now at }
    ensures { let content = content_now store.now in
        IsNamedArgument content.names (argument_named content.tokens at) result }
{
    variable_at(store, VarKey::Part(at.token, at.part))
}

// The part of a root, as an argument.
fn root_argument(alloc: Global, store: &Store, number: u32, part: Part) -> NetArg
    requires { IsPartThere (content_now store.now) (root_token number) part }
    ensures { let content = content_now store.now in
        IsNamedArgument content.names (part_of (root_token number) part) result }
{
    store.is_sound();
    let token = root_place(alloc, store.tokens(), number);
    part_argument(store, PartAt { token, part })
}

// The part of the token of a slot, as an argument.
fn slot_argument(
    store: &Store,
    token: u32,
    rule: u16,
    slot: u16,
    part: Part,
) -> Result<NetArg, AllocError>
    requires token { token < length (tokens_now store.now.past) }
    requires there { let content = content_now store.now in
        IsPartThere content (slot_token (name_at content.tokens token) rule slot) part }
    ensures { IfOk result (λ arg. let content = content_now store.now in
        IsNamedArgument content.names (part_of (slot_token (name_at content.tokens token) rule slot) part) arg) }
{
    store.is_sound();
    let token = slot_place(store.tokens(), token, rule, slot)?;
    Ok(part_argument(store, PartAt { token, part }))
}

// What the term is in the problem.
fn problem_argument(alloc: Global, store: &Store, term: Term) -> NetArg
    requires stands { CanStand InProblem term }
    requires there { IsTermThere (content_now store.now) InProblem term }
    ensures { IsTermArgument (content_now store.now) InProblem term result }
{
    match term {
        Term::Lit(value) => NetArg::Lit(value),
        Term::Global(number) => variable_at(store, VarKey::Global(number)),
        Term::Root(number, part) => root_argument(alloc, store, number, part),
        _ => unreachable!(),
    }
}

// What the term is in a rule of the token at this place.
fn rule_argument(
    alloc: Global,
    store: &Store,
    token: u32,
    rule: u16,
    term: Term,
) -> Result<NetArg, AllocError>
    requires token { token < length (tokens_now store.now.past) }
    requires stands { CanStand (InRule (name_at (content_now store.now).tokens token) rule) term }
    requires there { let content = content_now store.now in
        IsTermThere content (InRule (name_at content.tokens token) rule) term }
    ensures { IfOk result (let content = content_now store.now in
        IsTermArgument content (InRule (name_at content.tokens token) rule) term) }
{
    match term {
        Term::Lit(value) => Ok(NetArg::Lit(value)),
        Term::Here(part) => Ok(part_argument(store, PartAt { token, part })),
        Term::Slot(slot, part) => slot_argument(store, token, rule, slot as u16, part),
        Term::Local(number) => {
            let number = number as u16;
            Ok(variable_at(
                store,
                VarKey::Local {
                    token,
                    rule,
                    number,
                },
            ))
        }
        Term::Global(number) => Ok(variable_at(store, VarKey::Global(number))),
        Term::Root(number, part) => Ok(root_argument(alloc, store, number, part)),
    }
}

/// The argument that the term means where it stands.
pub fn argument_of(
    alloc: Global,
    store: &Store,
    origin: Origin,
    term: Term,
) -> Result<NetArg, AllocError>
    requires origin { IsOriginBelow (length (tokens_now store.now.past)) origin }
    requires stands { CanStand (origin_context (content_now store.now).tokens origin) term }
    requires there { let content = content_now store.now in
        IsTermThere content (origin_context content.tokens origin) term }
    ensures { IfOk result (let content = content_now store.now in
        IsTermArgument content (origin_context content.tokens origin) term) }
{
    match origin {
        Origin::Problem => Ok(problem_argument(alloc, store, term)),
        Origin::Rule { token, rule } => rule_argument(alloc, store, token, rule, term),
    }
}

/// The arguments that the terms mean where they stand.
pub fn arguments_of(
    alloc: Global,
    store: &Store,
    origin: Origin,
    terms: &[Term],
) -> Result<Vec<NetArg>, AllocError>
    requires origin { IsOriginBelow (length (tokens_now store.now.past)) origin }
    requires stand { All (CanStand (origin_context (content_now store.now).tokens origin)) terms.now }
    requires there { let content = content_now store.now in
        All (IsTermThere content (origin_context content.tokens origin)) terms.now }
    ensures { IfOk result (λ args. let content = content_now store.now in
        AllZip (IsTermArgument content (origin_context content.tokens origin)) terms.now args.items) }
{
    let mut args = Vec::with_capacity(alloc, terms.len())?;
    for term in terms {
        args.push(argument_of(alloc, store, origin, *term)?)?;
    }
    Ok(args)
}
