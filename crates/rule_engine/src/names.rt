//! The names of the tokens and variables that a block adds.

ghost use Rattle.std.specs.Prelude.{◌≡◌, ◌<◌, ◌^◌, map, All, IfOk};
ghost use Rattle.eu_name.specs.declared.name.VarName.TheVariants as variables;
ghost use Rattle.model_core.specs.Block.{plain_entries};
ghost use Rattle.model_core.specs.Blocks.{direct};
ghost use Rattle.model_core.specs.Tokens.{slot_token};
ghost use Rattle.rule_engine.specs.Lists.{slots_in, locals_in};

use eu_name::name::{TokenName, VarName};
use model_core::rule::Entry;
use model_core::slot_names::slot_name;
use std::alloc::{AllocError, Global};

/// The tokens that the slots among the entries ask for, in order.
pub fn slot_names(
    alloc: Global,
    token: &TokenName,
    rule: u16,
    entries: &[Entry],
) -> Result<Vec<TokenName>, AllocError>
    requires { All (λ slot. slot < 2 ^ 16) (slots_in (direct (plain_entries entries.now))) }
    ensures { IfOk result (λ names. names.items
        ≡ map (slot_token token.now rule) (slots_in (direct (plain_entries entries.now)))) }
{
    let mut names = Vec::new(alloc);
    for entry in entries {
        if let Entry::Slot(slot) = entry {
            names.push(slot_name(token, rule, *slot as u16)?)?;
        }
    }
    Ok(names)
}

// The name of the local of this number of the rule of this number of the token.
fn local_name(token: &TokenName, rule: u16, number: u16) -> Result<VarName, AllocError>
    ensures { IfOk result (λ name. name ≡ variables.Local token.now rule number) }
{
    Ok(VarName::Local {
        token: token.copy()?,
        rule,
        number,
    })
}

/// The locals among the entries, in order.
pub fn local_names(
    alloc: Global,
    token: &TokenName,
    rule: u16,
    entries: &[Entry],
) -> Result<Vec<VarName>, AllocError>
    requires { All (λ local. local < 2 ^ 16) (locals_in (direct (plain_entries entries.now))) }
    ensures { IfOk result (λ names. names.items
        ≡ map (variables.Local token.now rule) (locals_in (direct (plain_entries entries.now)))) }
{
    let mut names = Vec::new(alloc);
    for entry in entries {
        if let Entry::Local(number) = entry {
            names.push(local_name(token, rule, *number as u16)?)?;
        }
    }
    Ok(names)
}
