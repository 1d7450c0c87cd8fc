//! Laws of names, for whoever keeps them in order, or writes them and reads them again.

ghost use Rattle.eu_name.specs.Laws.{SpellsOneName, IsNameReadBack, IsWrittenBack, DecidesEquality};
ghost use Rattle.eu_name.specs.NameOrder.{IsStrictTotalOrder, IsTokenBefore, IsVarBefore};

use super::name::{Part, Step, TokenName, VarName};
use super::sequence::Sequence;
use super::text::Text;

/// A law: tokens are in a total order, and so are variables.
pub fn names_are_in_order()
    ensures tokens { IsStrictTotalOrder IsTokenBefore }
    ensures variables { IsStrictTotalOrder IsVarBefore }
{}

/// A law: reading and writing are inverse to each other, since a text spells one name at most.
pub fn names_are_read_back()
    ensures one { SpellsOneName }
    ensures read { IsNameReadBack }
    ensures written { IsWrittenBack }
{}

/// A law: `==` of names and texts tells whether the two are equal, so that they can be keys.
pub fn names_are_told_apart()
    ensures steps { DecidesEquality ⟦<Step as PartialEq>⟧.eq }
    ensures tokens { DecidesEquality ⟦<TokenName as PartialEq>⟧.eq }
    ensures parts { DecidesEquality ⟦<Part as PartialEq>⟧.eq }
    ensures variables { DecidesEquality ⟦<VarName as PartialEq>⟧.eq }
    ensures texts { DecidesEquality ⟦<Text as PartialEq>⟧.eq }
{}

/// A law: `==` of sequences tells whether they are equal, where that of their items does.
pub fn sequences_are_told_apart<T: PartialEq>()
    ensures { DecidesEquality T.eq → DecidesEquality ⟦<Sequence<T> as PartialEq>⟧.eq }
{}
