//! How many choices a flaw has.

ghost use Rattle.std.specs.Prelude.{◌≡◌, ◌<◌, ◌≤◌, List, Some, length, IfOk, MatchBool};
ghost use Rattle.model_core.specs.declared.decision.Decision.{Decision};
ghost use Rattle.flaw_core.specs.Rules.{IsLeastFor, IsFirstAt, AreChoicesAt};

use flaw_core::{Flaw, FlawRule, Plain};
use model_core::model::Model;
use model_core::view::View;
use std::alloc::AllocError;

/// As many tokens may be active at most where choices are counted.
pub const MOST_ACTIVE: u32 = 512;

// Whether the flaw has a choice of this number.
fn has_choice<V: View>(
    model: &Model,
    view: &V,
    flaw: &Flaw,
    number: u32,
) -> Result<bool, AllocError>
    requires model { V.model view.now ≡ model.now }
    requires least { IsLeastFor model.now (V.decisions view.now) (V.state view.now) }
    requires first { IsFirstAt model.now (V.decisions view.now) (V.state view.now) (Some flaw.now) }
    ensures { IfOk result (λ has. (choices : List Decision)
        → AreChoicesAt model.now (V.decisions view.now) (V.state view.now) 512 flaw.now choices
        → MatchBool has (number < length choices) (length choices ≤ number)) }
{
    match Plain.choice(model, view, flaw, number, MOST_ACTIVE) {
        Ok(Some(choice)) => {
            drop(choice);
            Ok(true)
        }
        Ok(None) => Ok(false),
        Err(none) => Err(none),
    }
}

/// How many choices the first flaw has, found by halving, since a variable may have a million values. More than a number can
/// say are answered by want of memory.
pub fn count_choices<V: View>(model: &Model, view: &V, flaw: &Flaw) -> Result<u32, AllocError>
    requires model { V.model view.now ≡ model.now }
    requires least { IsLeastFor model.now (V.decisions view.now) (V.state view.now) }
    requires first { IsFirstAt model.now (V.decisions view.now) (V.state view.now) (Some flaw.now) }
    ensures { IfOk result (λ count. (choices : List Decision)
        → AreChoicesAt model.now (V.decisions view.now) (V.state view.now) 512 flaw.now choices
        → length choices ≡ count) }
{
    let mut least = 0;
    let mut most = u32::MAX;
    if has_choice(model, view, flaw, most)? {
        return Err(AllocError);
    }
    while least < most {
        let middle = least + (most - least) / 2;
        if has_choice(model, view, flaw, middle)? {
            least = middle + 1;
        } else {
            most = middle;
        }
    }
    Ok(least)
}
