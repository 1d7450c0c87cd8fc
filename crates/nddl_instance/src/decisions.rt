//! The decisions of a text.

ghost use Rattle.std.specs.Prelude.{◌≡◌, ◌+◌, ◌++◌, IfOk, OnOk};
ghost use Rattle.model_core.specs.Tokens.{root_token};
ghost use Rattle.nddl_instance.specs.Decisions.{act_decision, merge_of, placed_decision, specified_number, specify_of, stand_number, stand_token, stand_variable, term_variable};

use eu_name::name::{TokenName, VarName};
use eu_name::sequence::Sequence;
use eu_name::text::Text;
use model_core::decision::Decision;
use model_core::item::Term;
use model_core::model::Placed;
use nddl_lower::compared::{decimal_stand, is_decimal_stand};
use nddl_terms::Stand;
use std::alloc::{AllocError, Global};

// The root of this number.
fn root_token(alloc: Global, root: u32) -> TokenName
    ensures { result ≡ root_token root }
{
    TokenName {
        root,
        steps: Sequence::new(alloc),
    }
}

/// The number of a global behind so many others. There is no memory for 2^32 of them.
pub fn global_behind(count: u32, number: u32) -> Result<u32, AllocError>
    ensures { IfOk result (λ global. global ≡ count + number) }
{
    match count.checked_add(number) {
        Some(global) => Ok(global),
        None => Err(AllocError),
    }
}

// The variable of the problem that the term is.
fn term_variable(alloc: Global, count: u32, term: Term) -> Result<Option<VarName>, AllocError>
    ensures { IfOk result (λ variable. variable ≡ term_variable count term) }
{
    match term {
        Term::Global(number) => Ok(Some(VarName::Global(number))),
        Term::Local(number) => Ok(Some(VarName::Global(global_behind(count, number)?))),
        Term::Root(number, part) => Ok(Some(VarName::Token(root_token(alloc, number), part))),
        _ => Ok(None),
    }
}

fn stand_variable(alloc: Global, count: u32, stand: Stand) -> Result<Option<VarName>, AllocError>
    ensures { IfOk result (λ variable. variable ≡ stand_variable count stand) }
{
    match stand {
        Stand::Value { term, .. } => term_variable(alloc, count, term),
        _ => Ok(None),
    }
}

// The token that is posted under a label.
fn stand_token(alloc: Global, stand: Stand) -> Option<TokenName>
    ensures { result ≡ stand_token stand }
{
    match stand {
        Stand::Root { number, .. } => Some(root_token(alloc, number)),
        _ => None,
    }
}

// A value that is known.
fn stand_number(stand: Stand) -> Option<i32>
    ensures { result ≡ stand_number stand }
{
    match stand {
        Stand::Value {
            term: Term::Lit(value),
            ..
        } => Some(value),
        _ => None,
    }
}

// The value that the variable is to have: a decimal, if the variable is one.
fn specified_number(owner: Stand, given: Stand) -> Option<i32>
    ensures { result ≡ specified_number owner given }
{
    if is_decimal_stand(owner) {
        stand_number(decimal_stand(given))
    } else {
        stand_number(given)
    }
}

fn specify_of(variable: Option<VarName>, value: Option<i32>) -> Option<Decision>
    ensures { result ≡ specify_of variable value }
{
    match (variable, value) {
        (Some(variable), Some(value)) => Some(Decision::Specify(variable, value)),
        _ => None,
    }
}

fn merge_of(token: Option<TokenName>, target: Option<TokenName>) -> Option<Decision>
    ensures { result ≡ merge_of token target }
{
    match (token, target) {
        (Some(token), Some(target)) => Some(Decision::Merge(token, target)),
        _ => None,
    }
}

/// What the act says of what stands before it and of what stands for its argument, behind so many declared globals.
pub fn act_decision(
    alloc: Global,
    count: u32,
    act: &Text,
    owner: Stand,
    given: Stand,
) -> Result<Option<Decision>, AllocError>
    ensures { IfOk result (λ decision. decision ≡ act_decision count act.now owner given) }
{
    let word = act.as_str();
    if word == "specify" {
        let variable = stand_variable(alloc, count, owner)?;
        Ok(specify_of(variable, specified_number(owner, given)))
    } else if word == "activate" {
        Ok(stand_token(alloc, owner).map(Decision::Activate))
    } else if word == "merge" {
        Ok(merge_of(stand_token(alloc, owner), stand_token(alloc, given)))
    } else if word == "reject" {
        Ok(stand_token(alloc, owner).map(Decision::Reject))
    } else {
        Ok(None)
    }
}

/// Puts the decision at its place in the file of this name behind the others, if there is one.
pub fn push_placed(
    alloc: Global,
    file: &str,
    at: u32,
    decision: Option<Decision>,
    decisions: &mut Sequence<Placed>,
) -> Result<(), AllocError>
    ensures { OnOk result (decisions.new ≡ decisions.old ++ placed_decision file.now at decision) }
{
    match decision {
        Some(decision) => {
            let file = Text::from_str(alloc, file)?;
            decisions.push(Placed { decision, file, at })
        }
        None => Ok(()),
    }
}
