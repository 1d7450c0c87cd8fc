//! What is wrong first with a problem.

ghost use Rattle.std.specs.Prelude.{◌≡◌, IfOk, OnOk};
ghost use Rattle.nddl_symbols.specs.Finding.{earliest_fault};
ghost use Rattle.nddl_problem.specs.Compiled.{problem_fault, problem_faults};
ghost use Rattle.nddl_problem.specs.Outlined.{IsOutlined, known_of};

use super::outline::Outline;
use nddl_problem_check::{note_problem_limits, note_problem_texts};
use nddl_symbols::Fault;
use nddl_unroll::note_tree_limits;
use std::alloc::{AllocError, Global};

// Notes all that is wrong with the problem beside its objects.
#[tactic(auto, using(nddl_symbols::proofs::Earliest::earliest_append))]
fn note_problem(
    alloc: Global,
    outline: &Outline<'_>,
    first: &mut Option<Fault>,
) -> Result<(), AllocError>
    requires { IsOutlined outline.now }
    ensures { OnOk result (first.new ≡ earliest_fault first.old (problem_faults (known_of outline.now))) }
{
    let basis = &outline.premises.sources.basis;
    note_problem_texts(alloc, basis, first)?;
    note_problem_limits(
        alloc,
        basis,
        outline.made,
        outline.lexicon,
        outline.scope,
        first,
    )?;
    note_tree_limits(alloc, outline.lexicon, outline.trees, first)
}

/// What is wrong first with the problem.
pub fn find_fault(alloc: Global, outline: &Outline<'_>) -> Result<Option<Fault>, AllocError>
    requires { IsOutlined outline.now }
    ensures { IfOk result (λ fault. fault ≡ problem_fault (known_of outline.now)) }
{
    let mut first = outline.made.first_fault();
    note_problem(alloc, outline, &mut first)?;
    Ok(first)
}
