//! Products by a factor. They are reached through the numbers that the factor multiplies, so no product is formed
//! that doesn't lie between the ends of a domain.

ghost use Rattle.std.specs.Prelude.{◌≡◌, ◌↔◌, ℤ, pos, ◌≤ℤ◌, ◌<ℤ◌, ◌*ℤ◌, IsTrue};
ghost use Rattle.domain_core.specs.Domain.{IsDomain, IsRange, IsValue, IsBetweenEnds, least, greatest};
ghost use Rattle.domain_core.specs.Narrowing.{Keeps};
ghost use Rattle.narrow_core.specs.Products.{LiesBetween, AreMultiplied};
ghost use Rattle.narrow_core.specs.Sweeps.{AllTested};

use super::limits::lies_between;
use super::narrow::Narrow;
use super::passing::all_tested;
use domain_core::Change;
use domain_core::domain::Dom;
use domain_core::number::{greater, less};

// The greatest number whose product with the factor is at most this one.
fn quotient(number: i32, factor: i32) -> i32
    requires positive { pos 0 <ℤ factor }
    requires value { IsValue number }
    ensures greatest { (x : ℤ) → ((x *ℤ factor) ≤ℤ number) ↔ (x ≤ℤ result) }
    ensures value { IsValue result }
{
    number.div_euclid(factor)
}

/// Between which numbers those lie whose product with the factor lies between `low` and `high`.
fn quotients(factor: i32, low: i32, high: i32) -> (i32, i32)
    requires factor { IsValue factor × (factor ≡ pos 0 → ⊥) }
    requires low { IsValue low }
    requires high { IsValue high }
    ensures { (x : ℤ) → ((result.0 ≤ℤ x) × (x ≤ℤ result.1)) ↔ ((low ≤ℤ (x *ℤ factor)) × ((x *ℤ factor) ≤ℤ high)) }
{
    if factor > 0 {
        (-quotient(-low, factor), quotient(high, factor))
    } else {
        (-quotient(high, -factor), quotient(-low, -factor))
    }
}

/// The first argument times a factor is the second.
#[derive(Clone, Copy)]
pub struct MulEq {
    factor: i32,
    ghost is_factor: { IsValue factor × (factor ≡ pos 0 → ⊥) },
}

impl MulEq {
    pub fn by(factor: i32) -> MulEq
        requires value { IsValue factor }
        requires nonzero { factor ≡ pos 0 → ⊥ }
        ensures { result.factor ≡ factor }
    {
        MulEq { factor }
    }

    // Between which of the numbers between the ends of x those lie whose product lies between `low` and `high`.
    fn multiplied(&self, x: &Dom, low: i32, high: i32) -> (i32, i32)
        requires low { IsValue low }
        requires high { IsValue high }
        ensures { AreMultiplied self.now.factor x.now low high result.0 result.1 }
    {
        let (first, last) = quotients(self.factor, low, high);
        (greater(first, x.lo()), less(last, x.hi()))
    }

    // Whether the value is the product of a number between the ends of x.
    fn is_product(&self, value: i32, x: &Dom) -> bool
        requires { IsValue value }
        ensures { IsTrue result ↔ ((w : ℤ) × IsBetweenEnds x.now w × ((w *ℤ self.now.factor) ≡ value)) }
    {
        let (first, last) = self.multiplied(x, value, value);
        first <= last
    }

    // Whether `keep_products` would take nothing.
    fn are_products(&self, products: &Dom, x: &Dom) -> bool
        ensures { IsTrue result
            ↔ AllTested (λ value. (w : ℤ) × IsBetweenEnds x.now w × ((w *ℤ self.now.factor) ≡ value)) products.now }
    {
        all_tested(products, |value| self.is_product(value, x))
    }

    // Keeps the products of the numbers between the ends of x.
    fn keep_products(&self, products: &mut Dom, x: &Dom) -> Change
        ensures kept { Keeps (λ value. (w : ℤ) × IsBetweenEnds x.now w × ((w *ℤ self.now.factor) ≡ value))
            products.old result products.new }
        ensures domain { IsDomain products.old → IsDomain products.new }
    {
        if products.is_range() {
            self.cut_to_products(products, x)
        } else {
            products.keep_members(|value| self.is_product(value, x))
        }
    }

    // Moves the ends of the products, which are a range, to the next product.
    fn cut_to_products(&self, products: &mut Dom, x: &Dom) -> Change
        requires { IsRange products.old }
        ensures kept { Keeps (λ value. (w : ℤ) × IsBetweenEnds x.now w × ((w *ℤ self.now.factor) ≡ value))
            products.old result products.new }
        ensures domain { IsDomain products.old → IsDomain products.new }
    {
        let (first, last) = self.multiplied_within(x, products);
        if last < first {
            return Change::Empty;
        }
        if self.factor > 0 {
            self.meet_products(products, first, last)
        } else {
            self.meet_products(products, last, first)
        }
    }

    // The first and the last number between the ends of x whose products lie between those of the domain.
    fn multiplied_within(&self, x: &Dom, products: &Dom) -> (i32, i32)
        ensures law { AreMultiplied self.now.factor x.now (least products.now) (greatest products.now)
            result.0 result.1 }
        ensures domain { IsDomain products.now }
    {
        self.multiplied(x, products.lo(), products.hi())
    }

    // Keeps what lies between the products of the two numbers.
    fn meet_products(&self, products: &mut Dom, low: i32, high: i32) -> Change
        requires low { IsValue (low *ℤ self.now.factor) }
        requires high { IsValue (high *ℤ self.now.factor) }
        ensures kept { Keeps (LiesBetween (low *ℤ self.now.factor) (high *ℤ self.now.factor))
            products.old result products.new }
        ensures domain { IsDomain products.new }
    {
        products.meet_range(low * self.factor, high * self.factor)
    }
}

impl Narrow for MulEq {
    ghost use Rattle.std.proofs.Common.{lit<};
    ghost use Rattle.domain_core.specs.Consistency.{Ends};
    ghost use Rattle.narrow_core.specs.Meanings.{IsProduct};

    ghost count = { λ _. 2 };

    ghost reach = { λ _. Ends };

    ghost holds = { λ it. IsProduct it.factor };

    ghost few = { λ _. (lit< tt, lit< tt) };

    fn keep_supported(&self, before: &[&Dom], own: &mut Dom, after: &[&Dom]) -> Change {
        match (before, after) {
            ([], [z]) => {
                let (first, last) = quotients(self.factor, z.lo(), z.hi());
                own.meet_range(first, last)
            }
            ([x], []) => self.keep_products(own, x),
            _ => unreachable!(),
        }
    }

    fn supports(&self, before: &[&Dom], own: &Dom, after: &[&Dom]) -> bool {
        match (before, after) {
            ([], [z]) => {
                let (first, last) = quotients(self.factor, z.lo(), z.hi());
                lies_between(own, first, last)
            }
            ([x], []) => self.are_products(own, x),
            _ => unreachable!(),
        }
    }
}
