//! Which of a domain's values have to be supported, and whether they pass a test: the ends of a range, each member of a
//! set.

ghost use Rattle.std.specs.Prelude.{◌↔◌, IsTrue, MatchBool, ℤ, true, false};
ghost use Rattle.domain_core.specs.Domain.{IsTested, IsValue};
ghost use Rattle.narrow_core.specs.Sweeps.{AllTested};

use domain_core::domain::Dom;

/// Whether the value is one that has to be supported.
pub fn is_tested(domain: &Dom, value: i32) -> bool
    ensures { IsTrue result ↔ IsTested domain.now value }
{
    if domain.is_range() {
        return value == domain.lo() || value == domain.hi();
    }
    domain.has(value)
}

/// Whether each value that has to be supported passes.
pub fn all_tested<F: Fn(i32) -> bool>(domain: &Dom, passes: F) -> bool
    requires { (value : ℤ) → IsValue value → F.pre passes value }
    ensures { MatchBool result (AllTested (λ value. F.post passes value true) domain.now)
        ((value : ℤ) × IsTested domain.now value × F.post passes value false) }
{
    if domain.is_range() {
        return passes(domain.lo()) && passes(domain.hi());
    }
    for place in 0..domain.count() {
        if let Some(member) = domain.nth(place) {
            if !passes(member) {
                return false;
            }
        }
    }
    true
}
