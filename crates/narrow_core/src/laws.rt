//! What one pass over the arguments promises, for every constraint.

ghost use Rattle.std.specs.Prelude.{◌≡◌, ◌<◌, ◌↔◌, ℤ, List, [], All, length};
ghost use Rattle.std.specs.List.{AllZip};
ghost use Rattle.domain_core.specs.Domain.{Domain, IsDomain, IsSingle};
ghost use Rattle.domain_core.specs.declared.Change.{Change};
ghost use Rattle.domain_core.specs.declared.Change.TheVariants.{Same};
ghost use Rattle.domain_core.specs.Consistency.{AreConsistent};
ghost use Rattle.narrow_core.specs.Sweeps.{Sweeps};
ghost use Rattle.narrow_core.specs.Products.{IsLikeThree};
ghost use Rattle.narrow_core.specs.Laws.{Narrows, IsMonotone, Decides};

use super::narrow::Narrow;

/// Only values go that no consistent domains below have; where none are below, the answer may be Empty, and it is
/// so only there. Same is answered exactly where the domains are consistent.
pub fn a_pass_narrows<C: Narrow>()
    ensures narrows { (it : C) (old new : List Domain) (change : Change) → All IsDomain old → All IsDomain new
        → Sweeps (C.reach it) (C.holds it) [] old change new → Narrows (C.reach it) (C.holds it) old change new }
    ensures same { (it : C) (old new : List Domain) (change : Change) → All IsDomain old → All IsDomain new
        → Sweeps (C.reach it) (C.holds it) [] old change new
        → (change ≡ Same) ↔ AreConsistent (C.reach it) (C.holds it) old }
{}

/// The answer depends on the domains alone, and of larger domains more is left.
pub fn a_pass_is_monotone<C: Narrow>()
    ensures one { (it : C) (old new other : List Domain) (change answer : Change) → All IsDomain old
        → All IsDomain new → All IsDomain other
        → Sweeps (C.reach it) (C.holds it) [] old change new
        → Sweeps (C.reach it) (C.holds it) [] old answer other → (change ≡ answer) × (new ≡ other) }
    ensures monotone { (it : C) → IsMonotone (C.reach it) (C.holds it) }
{}

/// On single values the answer is Same where the constraint holds of them, and Empty where it doesn't.
pub fn a_pass_decides<C: Narrow>()
    ensures { (it : C) (old new : List Domain) (values : List ℤ) (change : Change) → 0 < length old
        → All IsDomain old → All IsDomain new
        → AllZip IsSingle old values → Sweeps (C.reach it) (C.holds it) [] old change new
        → Decides change (C.holds it values) }
{}

/// A product by a factor is the constraint of three arguments whose second one is the factor alone.
pub fn a_factor_is_a_second_argument()
    ensures { (factor : ℤ) → IsLikeThree factor }
{}
