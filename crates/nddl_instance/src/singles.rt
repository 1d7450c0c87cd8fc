//! Domains of one value.

ghost use Rattle.std.specs.Prelude.{◌≡◌, ◌∷◌, [], IfOk};
ghost use Rattle.domain_core.specs.Domain.{Set};

use domain_core::domain::Dom;
use std::alloc::{AllocError, Global};

/// The set of the value alone. Where nothing is wrong with a text, it is one of those that a variable may have.
pub fn single_set(alloc: Global, value: i32) -> Result<Dom, AllocError>
    ensures { IfOk result (λ domain. domain ≡ Set (value ∷ [])) }
{
    match Dom::set_of(alloc, &[value]) {
        Ok(domain) => Ok(domain),
        Err(_) => Err(AllocError),
    }
}
