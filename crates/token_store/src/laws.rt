//! A law of ranks, for whoever goes over tokens in the order of names.

ghost use Rattle.token_store.specs.Orders.{RanksAreInverse};

use eu_name::laws::names_are_in_order;

/// A law: a token has one rank and at a rank is one token, so `rank` and `at_rank` are inverse to each other.
pub fn ranks_are_inverse()
    ensures { RanksAreInverse }
{
    names_are_in_order();
}
