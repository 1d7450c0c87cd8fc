//! Laws of what is kept.

ghost use Rattle.eu_name.specs.Laws.{DecidesEquality};
ghost use Rattle.db_store.specs.StoreLaws.{NamesAreOnce, NamesHaveOneNumber, GivesByNumber};
ghost use Rattle.db_store.specs.StoreLaws.{TokenIsAdded, StatesAreLeftOut, BlockIsAdded, VariableIsAdded};
ghost use Rattle.db_store.specs.StoreLaws.{DomainsAreReplaced, WatchersAreListed, MarksAreInOrder, StampsFollow};
ghost use Rattle.db_store.specs.StoreLaws.{StampsRiseOnTheWayBack, StampsStay};

use super::key::{OpenBlock, VarKey};
use eu_name::laws::{names_are_told_apart, sequences_are_told_apart};
use model_core::rule::Turn;

/// A law: `==` of keys and of blocks tells whether the two are equal.
pub fn keys_are_told_apart()
    ensures variables { DecidesEquality ⟦<VarKey as PartialEq>⟧.eq }
    ensures blocks { DecidesEquality ⟦<OpenBlock as PartialEq>⟧.eq }
{
    names_are_told_apart();
    sequences_are_told_apart::<Turn>();
}

/// A law: by names too, no token, no block and no variable is there twice, and a variable has the domain at its number.
pub fn names_are_once()
    ensures once { NamesAreOnce }
    ensures number { NamesHaveOneNumber }
    ensures gives { GivesByNumber }
{}

/// A law: one thing more is one name more, and nothing else changes.
pub fn names_are_added()
    ensures token { TokenIsAdded }
    ensures state { StatesAreLeftOut }
    ensures block { BlockIsAdded }
    ensures variable { VariableIsAdded }
    ensures domains { DomainsAreReplaced }
{}

/// A law: who watches a variable is whoever was put to watch it.
pub fn watchers_are_listed()
    ensures { WatchersAreListed }
{}

/// A law: a mark that comes before one comes before each later one.
pub fn marks_are_in_order()
    ensures { MarksAreInOrder }
{}

/// A law: stamps follow the domains for as long as a store goes on.
pub fn stamps_follow()
    ensures { StampsFollow }
{}

/// A law: where a store has gone back to where it was, its variables have the domains that they had, and no stamp is less.
pub fn stamps_rise()
    ensures back { StampsRiseOnTheWayBack }
    ensures same { StampsStay }
{}
