//! Laws of compiling.

ghost use Rattle.nddl_problem.specs.Outcomes.{CompileToOne};

/// A law: files have one model or one first fault, and not both.
#[tactic(auto, using(crate::proofs::OneAnswer::one_answer))]
pub fn files_compile_to_one()
    ensures { CompileToOne }
{}
