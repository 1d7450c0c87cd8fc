//! Domains that are cut at one end, or lie within ends.

ghost use Rattle.std.specs.Prelude.{◌≤ℤ◌, ◌↔◌, IsTrue};
ghost use Rattle.domain_core.specs.Domain.{IsDomain};
ghost use Rattle.domain_core.specs.Narrowing.{Keeps};
ghost use Rattle.narrow_core.specs.Sweeps.{AllTested};

use domain_core::Change;
use domain_core::domain::Dom;

/// Keeps the values up to `most`.
pub fn keep_up_to(domain: &mut Dom, most: i32) -> Change
    ensures kept { Keeps (λ value. value ≤ℤ most) domain.old result domain.new }
    ensures domain { IsDomain domain.new }
{
    let least = domain.lo();
    domain.meet_range(least, most)
}

/// Keeps the values from `least` on.
pub fn keep_from(domain: &mut Dom, least: i32) -> Change
    ensures kept { Keeps (λ value. least ≤ℤ value) domain.old result domain.new }
    ensures domain { IsDomain domain.new }
{
    let most = domain.hi();
    domain.meet_range(least, most)
}

/// Whether nothing lies above `most`.
pub fn lies_up_to(domain: &Dom, most: i32) -> bool
    ensures { IsTrue result ↔ AllTested (λ value. value ≤ℤ most) domain.now }
{
    domain.hi() <= most
}

/// Whether nothing lies below `least`.
pub fn lies_from(domain: &Dom, least: i32) -> bool
    ensures { IsTrue result ↔ AllTested (λ value. least ≤ℤ value) domain.now }
{
    least <= domain.lo()
}

/// Whether all lies from `lo` to `hi`.
pub fn lies_between(domain: &Dom, lo: i32, hi: i32) -> bool
    ensures { IsTrue result ↔ AllTested (λ value. (lo ≤ℤ value) × (value ≤ℤ hi)) domain.now }
{
    lo <= domain.lo() && domain.hi() <= hi
}
