//! What a constraint takes from the domains of its arguments.

use domain_core::Change;
use domain_core::domain::Dom;

/// A constraint.
pub trait Narrow {
    ghost use Rattle.std.specs.Prelude.{◌≡◌, ◌↔◌, ℕ, ◌+◌, ◌<◌, ℤ, List, [], All, IsTrue, length, map};
    ghost use Rattle.domain_core.specs.Domain.{IsDomain};
    ghost use Rattle.domain_core.specs.Narrowing.{Keeps};
    ghost use Rattle.domain_core.specs.Consistency.{Reach, IsSupported};
    ghost use Rattle.narrow_core.specs.Sweeps.{Sweeps, AllTested};

    /// How many arguments it has.
    ghost count: { Self → ℕ };

    /// Which values of the other arguments count.
    ghost reach: { Self → Reach };

    /// What it holds of.
    ghost holds: { Self → List ℤ → Type 0 };

    /// Keeps the values of one argument that are supported by those before it and those after it.
    fn keep_supported(&self, before: &[&Dom], own: &mut Dom, after: &[&Dom]) -> Change
        requires { length before.now + 1 + length after.now ≡ count self.now }
        ensures kept { Keeps (λ value. IsSupported (reach self.now) (holds self.now)
            (map (λ other. other.now) before.now) value (map (λ other. other.now) after.now))
            own.old result own.new }
        ensures domain { IsDomain own.old → IsDomain own.new };

    /// Whether `keep_supported` would take nothing. The arguments are read where they are.
    fn supports(&self, before: &[&Dom], own: &Dom, after: &[&Dom]) -> bool
        requires { length before.now + 1 + length after.now ≡ count self.now }
        ensures { IsTrue result ↔ AllTested (λ value. IsSupported (reach self.now) (holds self.now)
            (map (λ other. other.now) before.now) value (map (λ other. other.now) after.now)) own.now };

    /// Goes over the arguments once, in their order. What it leaves may be narrowed further by one more call. After
    /// Empty some of the arguments may be narrowed and others not.
    final fn narrow(&self, args: &mut [Dom]) -> Change
        requires { length args.old ≡ count self.now }
        ensures swept { Sweeps (reach self.now) (holds self.now) [] args.old result args.new }
        ensures domains { All IsDomain args.old → All IsDomain args.new }
    {
        let mut change = Change::Same;
        for place in 0..args.len() {
            let step = narrow_at(self, args, place);
            if let Change::Empty = step {
                return Change::Empty;
            }
            change = change.then(step);
        }
        change
    }

    /// It has two arguments or three.
    ghost few: { (it : Self) → (1 < count it) × (count it < 4) };
}

ghost use Rattle.std.specs.Prelude.{◌≡◌, ◌+◌, ◌<◌, All, length};
ghost use Rattle.domain_core.specs.Domain.{IsDomain};
ghost use Rattle.domain_core.specs.Narrowing.{Keeps};
ghost use Rattle.domain_core.specs.Consistency.{IsSupported};
ghost use Rattle.narrow_core.specs.Sweeps.{NarrowsAt};

// Narrows the argument at this place.
fn narrow_at<C: Narrow>(constraint: &C, args: &mut [Dom], place: usize) -> Change
    requires count { length args.old ≡ C.count constraint.now }
    requires place { place < length args.old }
    ensures narrowed { NarrowsAt (C.reach constraint.now) (C.holds constraint.now) place args.old result args.new }
    ensures domains { All IsDomain args.old → All IsDomain args.new }
{
    let (before, rest) = args.split_at_mut(place);
    let (own, after) = rest.split_at_mut(1);
    keep_beside(constraint, before, &mut own[0], after)
}

// Narrows an argument that stands among the others.
fn keep_beside<C: Narrow>(constraint: &C, before: &[Dom], own: &mut Dom, after: &[Dom]) -> Change
    requires { length before.now + 1 + length after.now ≡ C.count constraint.now }
    ensures kept { Keeps (λ value. IsSupported (C.reach constraint.now) (C.holds constraint.now)
        before.now value after.now) own.old result own.new }
    ensures domain { IsDomain own.old → IsDomain own.new }
{
    if before.len() + after.len() == 1 {
        keep_beside_one(constraint, before, own, after)
    } else {
        keep_beside_two(constraint, before, own, after)
    }
}

// Narrows an argument that has one other beside it.
fn keep_beside_one<C: Narrow>(
    constraint: &C,
    before: &[Dom],
    own: &mut Dom,
    after: &[Dom],
) -> Change
    requires count { length before.now + 1 + length after.now ≡ C.count constraint.now }
    requires one { length before.now + length after.now ≡ 1 }
    ensures kept { Keeps (λ value. IsSupported (C.reach constraint.now) (C.holds constraint.now)
        before.now value after.now) own.old result own.new }
    ensures domain { IsDomain own.old → IsDomain own.new }
{
    match (before, after) {
        ([], [y]) => constraint.keep_supported(&[], own, &[y]),
        ([x], []) => constraint.keep_supported(&[x], own, &[]),
        _ => unreachable!(),
    }
}

// Narrows an argument that has two others beside it.
fn keep_beside_two<C: Narrow>(
    constraint: &C,
    before: &[Dom],
    own: &mut Dom,
    after: &[Dom],
) -> Change
    requires count { length before.now + 1 + length after.now ≡ C.count constraint.now }
    requires two { length before.now + length after.now ≡ 2 }
    ensures kept { Keeps (λ value. IsSupported (C.reach constraint.now) (C.holds constraint.now)
        before.now value after.now) own.old result own.new }
    ensures domain { IsDomain own.old → IsDomain own.new }
{
    match (before, after) {
        ([], [y, z]) => constraint.keep_supported(&[], own, &[y, z]),
        ([x], [z]) => constraint.keep_supported(&[x], own, &[z]),
        ([x, y], []) => constraint.keep_supported(&[x, y], own, &[]),
        _ => unreachable!(),
    }
}
