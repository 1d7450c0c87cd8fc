//! The text of the generated problem.

ghost use Rattle.std.specs.Prelude.{◌≡◌, ◌<◌, ◌≤◌, ◌⊎◌, IfOk, Err, string_bytes};
ghost use Rattle.problem_gen.specs.Generated.{frame_text, goal_text, goals_before, generated_text};
ghost use Rattle.problem_gen.specs.declared.generating.GenFault.TheVariants.{OutOfRange};

use eu_name::bytes::Bytes;
use std::alloc::{AllocError, Global};

/// Why no problem was generated.
#[derive(Clone, Copy, Debug, PartialEq, Eq)]
pub enum GenFault {
    /// There are from 1 to 200 goals.
    OutOfRange,
    Memory,
}

const LARGEST: u32 = 200;

// The declarations before the goals, where there are so many of these.
fn frame(alloc: Global, count: u32) -> Result<String, AllocError>
    requires { count ≤ 200 }
    ensures { IfOk result (λ text. string_bytes text ≡ frame_text count) }
{
    let end = 2 * count;
    format!(in alloc;
        "class Tool extends Reusable {{ Tool(int c) {{ super(c); }} }}\nclass Line extends Timeline {{ predicate Job {{ int [0 9] kind; }} }}\nLine::Job {{ eq(duration, 2); equals(Tool.uses u); eq(u.quantity, 1); }}\nPlannerConfig p = new PlannerConfig(0, {end}, 100000);\nTool t = new Tool(1);\nLine l = new Line();\nclose();\n"
    )
}

// The goal of this number, where there are so many.
fn goal(alloc: Global, count: u32, number: u32) -> Result<String, AllocError>
    requires some { number < count }
    requires few { count ≤ 200 }
    ensures { IfOk result (λ text. string_bytes text ≡ goal_text count number) }
{
    let start = 2 * (count - 1 - number);
    let kind = number % 10;
    format!(in alloc;
        "goal(l.Job g{number});\neq(g{number}.start, {start});\neq(g{number}.kind, {kind});\n"
    )
}

/// The text of the problem with so many goals.
pub fn generate(alloc: Global, count: u32) -> Result<Bytes, GenFault>
    ensures text { IfOk result (λ text. text ≡ generated_text count) }
    ensures out_of_range { (count < 1) ⊎ (200 < count) → result ≡ Err OutOfRange }
    ensures in_range { result ≡ Err OutOfRange → (count < 1) ⊎ (200 < count) }
{
    if count < 1 || LARGEST < count {
        return Err(GenFault::OutOfRange);
    }
    match whole(alloc, count) {
        Ok(text) => Ok(Bytes::from_vec(text.into_bytes())),
        Err(AllocError) => Err(GenFault::Memory),
    }
}

// The whole text, where there are as many goals as there may be.
fn whole(alloc: Global, count: u32) -> Result<String, AllocError>
    requires { count ≤ 200 }
    ensures { IfOk result (λ text. string_bytes text ≡ generated_text count) }
{
    let mut text = frame(alloc, count)?;
    for number in 0..count {
        text.push_str(goal(alloc, count, number)?.as_str())?;
    }
    Ok(text)
}
