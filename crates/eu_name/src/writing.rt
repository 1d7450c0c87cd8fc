//! Writes names.

ghost use Rattle.std.specs.Prelude.{◌≡◌, ◌++◌, IfOk, OnOk, string_bytes};
ghost use Rattle.eu_name.specs.Spelling.{step_text, tail_text, name_spelling};

use super::bytes::Bytes;
use super::name::Step;
use super::name_text::{NameText, Tail};
use std::alloc::{AllocError, Global};

/// Writes a step after what is there.
fn write_step(text: &mut String, step: Step) -> Result<(), AllocError>
    ensures { OnOk result (string_bytes text.new ≡ string_bytes text.old ++ step_text step) }
{
    write!(text, "/{}:{}", step.rule, step.slot)
}

/// Writes a tail after what is there.
fn write_tail(text: &mut String, tail: &Tail) -> Result<(), AllocError>
    ensures { OnOk result (string_bytes text.new ≡ string_bytes text.old ++ tail_text tail.now) }
{
    match tail {
        Tail::None => Ok(()),
        Tail::Part(part) => write!(text, ".{}", part.as_str()),
        Tail::Local { rule, number } => write!(text, "/{}!{}", rule, number),
    }
}

/// The one spelling of a name, where it is well-formed, as every name that was read is. Any other is written alike,
/// and then the text spells another name or none.
pub fn write_name(alloc: Global, name: &NameText) -> Result<Bytes, AllocError>
    ensures { IfOk result (λ bytes. bytes ≡ name_spelling name.now) }
{
    let mut text = String::from_str(alloc, name.label.as_str())?;
    for step in name.steps.as_slice() {
        write_step(&mut text, *step)?;
    }
    write_tail(&mut text, &name.tail)?;
    Ok(Bytes::from_vec(text.into_bytes()))
}
