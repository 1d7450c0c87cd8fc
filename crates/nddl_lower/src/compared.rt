//! The terms of what is compared.

ghost use Rattle.std.specs.Prelude.{◌≡◌, ◌++◌, IfOk, OnOk, map};
ghost use Rattle.nddl_lower.specs.Compared.{compared_term, compared_terms, constraint_terms, decimal_number, decimal_stand, decimal_term, has_decimal, is_decimal_stand, stand_term};
ghost use Rattle.domain_core.specs.declared.kind.Kind.TheVariants.{MulEq, TestEq};

use domain_core::kind::Kind;
use eu_name::sequence::Sequence;
use model_core::item::Term;
use model_core::variable::ValueKind;
use nddl_ast::decimal::decimal_for;
use nddl_terms::Stand;
use std::alloc::{AllocError, Global};

/// The term of a value.
pub fn stand_term(stand: Stand) -> Term
    ensures { result ≡ stand_term stand }
{
    match stand {
        Stand::Value { term, .. } => term,
        _ => Term::Lit(0),
    }
}

/// Whether it is a decimal, or a variable that is one.
pub fn is_decimal_stand(stand: Stand) -> bool
    ensures { result ≡ is_decimal_stand stand }
{
    match stand {
        Stand::Value {
            kind: ValueKind::Float,
            ..
        } => true,
        _ => false,
    }
}

/// Whether one of these is a decimal.
pub fn has_decimal(stands: &[Stand]) -> bool
    ensures { result ≡ has_decimal stands.now }
{
    for stand in stands {
        if is_decimal_stand(*stand) {
            return true;
        }
    }
    false
}

// The decimal for which the number stands.
fn decimal_number(number: i32) -> i32
    ensures { result ≡ decimal_number number }
{
    match decimal_for(number) {
        Some(decimal) => decimal,
        None => number,
    }
}

/// What stands for it where a decimal is wanted.
pub fn decimal_stand(stand: Stand) -> Stand
    ensures { result ≡ decimal_stand stand }
{
    match stand {
        Stand::Value {
            term: Term::Lit(number),
            kind: ValueKind::Int,
            class,
        } => Stand::Value {
            term: Term::Lit(decimal_number(number)),
            kind: ValueKind::Float,
            class,
        },
        _ => stand,
    }
}

/// The term of one that is compared, as a decimal or as it is.
pub fn compared_term(decimal: bool, stand: Stand) -> Term
    ensures { result ≡ compared_term decimal stand }
{
    if decimal {
        stand_term(decimal_stand(stand))
    } else {
        stand_term(stand)
    }
}

// Puts the terms of those that are compared behind the others.
fn push_terms(decimal: bool, stands: &[Stand], terms: &mut Sequence<Term>) -> Result<(), AllocError>
    ensures { OnOk result (terms.new ≡ terms.old ++ map (compared_term decimal) stands.now) }
{
    for stand in stands {
        terms.push(compared_term(decimal, *stand))?;
    }
    Ok(())
}

/// The terms of those that are compared: if one is a decimal, they all are.
pub fn compared_terms(alloc: Global, stands: &[Stand]) -> Result<Sequence<Term>, AllocError>
    ensures { IfOk result (λ terms. terms ≡ compared_terms stands.now) }
{
    let mut terms = Sequence::new(alloc);
    push_terms(has_decimal(stands), stands, &mut terms)?;
    Ok(terms)
}

// The terms of a truth and of what is compared.
fn test_terms(alloc: Global, stands: &[Stand]) -> Result<Sequence<Term>, AllocError>
    ensures { IfOk result (λ terms. terms ≡ constraint_terms TestEq stands.now) }
{
    let mut terms = Sequence::new(alloc);
    match stands {
        [truth, compared @ ..] => {
            terms.push(stand_term(*truth))?;
            push_terms(has_decimal(compared), compared, &mut terms)?;
            Ok(terms)
        }
        [] => Ok(terms),
    }
}

// The terms of a number, a factor and their product.
fn product_terms(alloc: Global, stands: &[Stand]) -> Result<Sequence<Term>, AllocError>
    ensures { IfOk result (λ terms. terms ≡ constraint_terms MulEq stands.now) }
{
    match stands {
        [first, factor, product] => {
            let decimal = is_decimal_stand(*first) || is_decimal_stand(*product);
            let mut terms = Sequence::new(alloc);
            terms.push(compared_term(decimal, *first))?;
            terms.push(stand_term(*factor))?;
            terms.push(compared_term(decimal, *product))?;
            Ok(terms)
        }
        _ => compared_terms(alloc, stands),
    }
}

/// The terms of a constraint of what stands for these.
pub fn constraint_terms(
    alloc: Global,
    kind: Kind,
    stands: &[Stand],
) -> Result<Sequence<Term>, AllocError>
    ensures { IfOk result (λ terms. terms ≡ constraint_terms kind stands.now) }
{
    match kind {
        Kind::TestEq | Kind::TestLeq => test_terms(alloc, stands),
        Kind::MulEq => product_terms(alloc, stands),
        Kind::Eq | Kind::Neq | Kind::Lt | Kind::Leq | Kind::AddEq => compared_terms(alloc, stands),
        Kind::AllDiff | Kind::Field(_) => compared_terms(alloc, stands),
    }
}
