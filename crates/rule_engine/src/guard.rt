//! The test of guards.

ghost use Rattle.std.specs.Prelude.{◌≡◌, ℤ, MatchBool, MatchOption};
ghost use Rattle.domain_core.specs.Domain.{IsSingle};
ghost use Rattle.model_core.specs.declared.rule.Guard.{Guard};
ghost use Rattle.model_core.specs.declared.rule.Side.{Side};
ghost use Rattle.plan_defs.specs.Support.{side_when};
ghost use Rattle.rule_engine.specs.Guards.{asks_equal, AlwaysSelects};

use domain_core::domain::Dom;

/// The truth of a guard on variables with these domains, where every choice of a value for each agrees on it. The guard
/// asks that the two are equal, or, where `guard_equal` is false, that they differ. It takes no memory.
pub fn entailed(guard_equal: bool, a: &Dom, b: &Dom) -> Option<bool>
    ensures { (guard : Guard) → asks_equal guard ≡ guard_equal → MatchOption result
        ((side : Side) → AlwaysSelects guard side a.now b.now → ⊥)
        (λ truth. AlwaysSelects guard (side_when truth) a.now b.now) }
{
    if !a.has_common(b) {
        return Some(!guard_equal);
    }
    if !is_single(a) {
        return None;
    }
    if is_single(b) {
        Some(guard_equal)
    } else {
        None
    }
}

// Whether the domain has one value only.
fn is_single(domain: &Dom) -> bool
    ensures { MatchBool result
        ((value : ℤ) × IsSingle domain.now value)
        ((value : ℤ) → IsSingle domain.now value → ⊥) }
{
    domain.single().is_some()
}
