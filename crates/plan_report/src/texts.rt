//! The lines that are printed of the texts of plans.

ghost use Rattle.std.specs.Prelude.{◌≡◌, ◌++◌, IfOk, false, codes};
ghost use Rattle.std.specs.Fmt.{decimal};
ghost use Rattle.model_core.specs.Lawful.{IsLawful};
ghost use Rattle.plan_report.specs.Verdicts.{IsFaultLine, ChecksAs};

use super::verdicts::{Checked, check_plan};
use eu_name::bytes::Bytes;
use itoa::Buffer;
use model_core::model::Model;
use plan_core::read_plan;
use plan_text::fault::PlanTextFault;
use plan_text::writing::put_word;
use std::alloc::{AllocError, Global};

// The line of a fault of this kind at this place.
fn fault_line(alloc: Global, kind: &[u8], at: u32) -> Result<Bytes, AllocError>
    ensures { IfOk result (λ reply. reply ≡ codes "invalid text " ++ (kind.now ++ (codes " " ++ (decimal at ++ codes "\n")))) }
{
    let mut out = Vec::from_slice(alloc, b"invalid text ")?;
    let mut buffer = Buffer::new();
    put_word(&mut out, kind, b" ")?;
    put_word(&mut out, buffer.format(at).as_bytes(), b"\n")?;
    Ok(Bytes::from_vec(out))
}

// The line of the fault; none where memory ran out.
fn fault_reply(alloc: Global, fault: PlanTextFault) -> Result<Bytes, AllocError>
    ensures { IfOk result (IsFaultLine fault) }
{
    match fault {
        PlanTextFault::Syntax(at) => fault_line(alloc, b"Syntax", at),
        PlanTextFault::Twice(at) => fault_line(alloc, b"Twice", at),
        PlanTextFault::Unknown(at) => fault_line(alloc, b"Unknown", at),
        PlanTextFault::Memory => Err(AllocError),
    }
}

// What is printed of a fault.
fn faulty(alloc: Global, fault: PlanTextFault) -> Result<Checked, AllocError>
    ensures { IfOk result (λ checked. IsFaultLine fault checked.reply × (checked.is_valid ≡ false)) }
{
    Ok(Checked {
        reply: fault_reply(alloc, fault)?,
        is_valid: false,
    })
}

/// Reads the text of a plan of the model and checks the plan; or says what is wrong with the text first, by place. A text of 2^32
/// bytes or more, whose places have no numbers, is answered as is want of memory.
pub fn check_text(alloc: Global, model: &Model, text: &[u8]) -> Result<Checked, AllocError>
    requires { IsLawful model.now }
    ensures { IfOk result (λ checked. ChecksAs model.now text.now checked.reply checked.is_valid) }
{
    match read_plan(alloc, model, text) {
        Ok(plan) => check_plan(alloc, model, &plan),
        Err(fault) => faulty(alloc, fault),
    }
}
