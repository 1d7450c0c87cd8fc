//! How many tokens are active.

ghost use Rattle.std.specs.Prelude.{◌≡◌, List, MatchBool, length};
ghost use Rattle.eu_name.specs.declared.name.TokenName.{TokenName};
ghost use Rattle.model_core.specs.Decided.{IsActive};
ghost use Rattle.plan_defs.specs.Refusals.{AreActive};
ghost use Rattle.flaw_core.specs.Rules.{IsLeastFor};
ghost use Rattle.flaw_core.specs.Gathering.{AreAllThat};

use model_core::view::View;
use timeline_core::is_active;

// How many tokens of the view are active.
fn count_active<V: View>(view: &V) -> u32
    requires { IsLeastFor (V.model view.now) (V.decisions view.now) (V.state view.now) }
    ensures { (active : List TokenName) × (length active ≡ result)
        × AreAllThat (IsActive (V.model view.now) (V.decisions view.now)) (V.state view.now) active }
{
    let mut active = 0;
    for place in 0..view.count() {
        if !is_active(view, place) {
            continue;
        }
        active += 1;
    }
    active
}

/// Whether at least so many tokens are active.
pub fn are_active<V: View>(view: &V, number: u32) -> bool
    requires { IsLeastFor (V.model view.now) (V.decisions view.now) (V.state view.now) }
    ensures { MatchBool result
        (AreActive (V.model view.now) (V.decisions view.now) number)
        (AreActive (V.model view.now) (V.decisions view.now) number → ⊥) }
{
    number <= count_active(view)
}
