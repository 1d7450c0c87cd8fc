//! The lines of variables with their domains.

ghost use Rattle.std.specs.Prelude.{◌≡◌, ◌++◌, ◌<◌, List, ℤ, [], OnOk, codes};
ghost use Rattle.domain_core.specs.Domain.{Set, Has, IsNth, IsRange, count_of, greatest, least};
ghost use Rattle.model_core.specs.declared.variable.Base.{Base};
ghost use Rattle.model_core.specs.Kinds.{IsValueOf};
ghost use Rattle.model_core.specs.Lawful.{IsLawful};
ghost use Rattle.model_core.specs.Variables.{HasBase, IsInBase};
ghost use Rattle.session_replies.specs.Lines.{IsDomainLine, IsDomainText, printed_number};
ghost use Rattle.session_replies.specs.Written.{WritesBehind, WritesLine, WritesMembers};

use super::counting::{put_line_feed, put_text};
use domain_core::domain::Dom;
use eu_name::name::VarName;
use model_core::model::Model;
use model_core::variable::ValueKind;
use plan_text::writing::{put_decimal, put_number, put_shown, put_variable};
use std::alloc::{AllocError, Global};

// The value at this place of the domain.
fn value_at(domain: &Dom, place: u32) -> i32
    requires { place < count_of domain.now }
    ensures { IsNth domain.now place result }
{
    match domain.nth(place) {
        Some(value) => value,
        None => unreachable!(),
    }
}

// What stands before a member at this place.
fn gap_before(place: u32) -> &'static [u8]
    ensures first { place ≡ 0 → result.now ≡ [] }
    ensures later { 0 < place → result.now ≡ codes " " }
{
    if place == 0 { b"" } else { b" " }
}

// The values of a set, with single spaces between them.
fn put_members(
    out: &mut Vec<u8>,
    model: &Model,
    kind: ValueKind,
    domain: &Dom,
) -> Result<(), AllocError>
    requires lawful { IsLawful model.now }
    requires values { (value : ℤ) → Has domain.now value → IsValueOf model.now kind value }
    ensures { OnOk result ((members : List ℤ) → domain.now ≡ Set members
        → WritesMembers model.now kind members out.old.items out.new.items) }
{
    for place in 0..domain.count() {
        put_shown(out, gap_before(place), model, kind, value_at(domain, place))?;
    }
    Ok(())
}

// The set in braces, behind a space.
fn put_set(
    out: &mut Vec<u8>,
    model: &Model,
    kind: ValueKind,
    domain: &Dom,
) -> Result<(), AllocError>
    requires lawful { IsLawful model.now }
    requires values { (value : ℤ) → Has domain.now value → IsValueOf model.now kind value }
    requires set { IsRange domain.now → ⊥ }
    ensures { OnOk result (WritesBehind (codes " ") (IsDomainText model.now kind domain.now) out.old.items out.new.items) }
{
    put_text(out, b" {")?;
    put_members(out, model, kind, domain)?;
    put_text(out, b"}")
}

// The number of the kind, behind the gap.
fn put_printed_number(
    out: &mut Vec<u8>,
    gap: &[u8],
    kind: ValueKind,
    value: i32,
) -> Result<(), AllocError>
    ensures { OnOk result (out.new.items ≡ out.old.items ++ (gap.now ++ printed_number kind value)) }
{
    match kind {
        ValueKind::Float => put_decimal(out, gap, value),
        _ => put_number(out, gap, value),
    }
}

// The ends of the range in brackets, behind a space.
fn put_range(out: &mut Vec<u8>, kind: ValueKind, domain: &Dom) -> Result<(), AllocError>
    ensures { OnOk result (out.new.items ≡ out.old.items ++ (codes " [" ++ (printed_number kind (least domain.now)
        ++ (codes " " ++ (printed_number kind (greatest domain.now) ++ codes "]"))))) }
{
    put_printed_number(out, b" [", kind, domain.lo())?;
    put_printed_number(out, b" ", kind, domain.hi())?;
    put_text(out, b"]")
}

// The domain, behind a space.
fn put_domain(
    out: &mut Vec<u8>,
    model: &Model,
    kind: ValueKind,
    domain: &Dom,
) -> Result<(), AllocError>
    requires lawful { IsLawful model.now }
    requires values { (value : ℤ) → Has domain.now value → IsValueOf model.now kind value }
    ensures { OnOk result (WritesBehind (codes " ") (IsDomainText model.now kind domain.now) out.old.items out.new.items) }
{
    if domain.is_range() {
        put_range(out, kind, domain)
    } else {
        put_set(out, model, kind, domain)
    }
}

/// The line of a variable of the model with a domain that lies in its base.
pub fn put_domain_line(
    out: &mut Vec<u8>,
    alloc: Global,
    model: &Model,
    variable: &VarName,
    domain: &Dom,
) -> Result<(), AllocError>
    requires lawful { IsLawful model.now }
    requires declared { (base : Base) × HasBase model.now variable.now base × IsInBase domain.now base }
    ensures { OnOk result (WritesLine (IsDomainLine model.now variable.now domain.now) out.old.items out.new.items) }
{
    put_variable(out, b"", alloc, model, variable)?;
    put_domain(out, model, model.kind_of(variable), domain)?;
    put_line_feed(out)
}
