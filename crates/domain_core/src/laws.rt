//! Laws of domains, for whoever speaks of them without looking at how they are kept. Each holds of ranges and sets
//! alike.

ghost use Rattle.std.specs.Prelude.{◌≡◌, ◌↔◌};
ghost use Rattle.domain_core.specs.Domain.{Domain, IsDomain, IsWithin, IsSingle, least, slack};
ghost use Rattle.domain_core.specs.Narrowing.{Keeps};
ghost use Rattle.domain_core.specs.Laws.{HasEnds, HasValues, HasPlaces, SlackFalls, KeepsGreatest, KeepsExactly};
ghost use Rattle.domain_core.specs.Laws.{Kept, Passes, IsMonotoneKeeping, MakesOne};
ghost use Rattle.domain_core.specs.declared.Change.{Change};

/// What a domain has, by its ends and its places.
pub fn domains_have_values()
    ensures ends { (domain : Domain) → IsDomain domain → HasEnds domain }
    ensures values { (domain : Domain) → IsDomain domain → HasValues domain }
    ensures places { (domain : Domain) → IsDomain domain → HasPlaces domain }
    ensures single { (domain : Domain) → IsDomain domain → (slack domain ≡ 0) ↔ IsSingle domain (least domain) }
{}

/// To lie in another domain is an order, and slack measures how far down it one is.
pub fn within_is_an_order()
    ensures reflexive { (domain : Domain) → IsWithin domain domain }
    ensures transitive { (inner middle outer : Domain) → IsWithin inner middle → IsWithin middle outer
        → IsWithin inner outer }
    ensures antisymmetric { (one other : Domain) → IsDomain one → IsDomain other → IsWithin one other
        → IsWithin other one → one ≡ other }
    ensures measured { (inner outer : Domain) → IsDomain inner → IsDomain outer → SlackFalls inner outer }
{}

/// What a call that takes values away leaves is the greatest part that passes; it is one, and of more, more is left.
pub fn narrowing_leaves_the_greatest_part()
    ensures greatest { (what : Kept) (old new : Domain) (change : Change) → IsDomain old → IsDomain new
        → Keeps (Passes what) old change new → KeepsGreatest (Passes what) old change new }
    ensures exact { (what : Kept) (old new : Domain) (change : Change) → IsDomain old → IsDomain new
        → Keeps (Passes what) old change new → KeepsExactly (Passes what) old change new }
    ensures one { (what : Kept) (old new other : Domain) (change answer : Change) → IsDomain old → IsDomain new
        → IsDomain other → Keeps (Passes what) old change new → Keeps (Passes what) old answer other
        → (change ≡ answer) × (new ≡ other) }
    ensures monotone { (what more : Kept) → IsMonotoneKeeping what more }
{}

/// What is made of a list depends on the list alone.
pub fn a_list_makes_one_set()
    ensures { MakesOne }
{}
