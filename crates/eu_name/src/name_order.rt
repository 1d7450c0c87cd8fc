//! The order of names: that of tokens, and that of variables.

ghost use Rattle.std.specs.Prelude.{◌≡◌, ◌↔◌};
ghost use Rattle.std.specs.declared.cmp.Ordering.TheVariants.{Less, Equal, Greater};
ghost use Rattle.eu_name.specs.NameOrder.{IsTokenBefore, IsVarBefore, place_of};

use super::name::{Part, TokenName, VarName};
use std::cmp::Ordering;

/// The order of tokens: by the number of steps, then by the root, then step by step, where a step goes by its rule
/// and then by its slot.
pub fn order(a: &TokenName, b: &TokenName) -> Ordering
    ensures less { (result ≡ Less) ↔ IsTokenBefore a.now b.now }
    ensures equal { (result ≡ Equal) ↔ (a.now ≡ b.now) }
    ensures greater { (result ≡ Greater) ↔ IsTokenBefore b.now a.now }
{
    let by_count = a.steps.len().cmp(&b.steps.len());
    let by_root = a.root.cmp(&b.root);
    let by_step = a.steps.as_slice().cmp(&b.steps.as_slice());
    by_count.then(by_root.then(by_step))
}

/// The place of a part among those of its token.
fn place(part: Part) -> u32
    ensures { result ≡ place_of part }
{
    match part {
        Part::Object => 0,
        Part::Start => 1,
        Part::End => 2,
        Part::Duration => 3,
        Part::Param(number) => 4 + u32::from(number),
    }
}

/// The order of variables: globals by number, and then by token; within a token object, start, end, duration and
/// the parameters, and then the locals by rule and number.
pub fn var_order(a: &VarName, b: &VarName) -> Ordering
    ensures less { (result ≡ Less) ↔ IsVarBefore a.now b.now }
    ensures equal { (result ≡ Equal) ↔ (a.now ≡ b.now) }
    ensures greater { (result ≡ Greater) ↔ IsVarBefore b.now a.now }
{
    match (a, b) {
        (VarName::Global(a), VarName::Global(b)) => a.cmp(b),
        (VarName::Global(_), _) => Ordering::Less,
        (_, VarName::Global(_)) => Ordering::Greater,
        (VarName::Token(a, part), VarName::Token(b, other)) => {
            order(a, b).then(place(*part).cmp(&place(*other)))
        }
        (VarName::Token(a, _), VarName::Local { token: b, .. }) => order(a, b).then(Ordering::Less),
        (VarName::Local { token: a, .. }, VarName::Token(b, _)) => {
            order(a, b).then(Ordering::Greater)
        }
        (
            VarName::Local {
                token: a,
                rule,
                number,
            },
            VarName::Local {
                token: b,
                rule: other_rule,
                number: other_number,
            },
        ) => order(a, b)
            .then(rule.cmp(other_rule))
            .then(number.cmp(other_number)),
    }
}
