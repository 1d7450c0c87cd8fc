//! Ranges of types.

ghost use Rattle.std.specs.Prelude.{◌≡◌};
ghost use Rattle.nddl_symbols.specs.Finding.{earliest_fault};
ghost use Rattle.nddl_typeexpr.specs.Values.{end_number};
ghost use Rattle.nddl_typeexpr.specs.Bounds.{is_wrong_range, extent_between, range_faults};

use super::base::BaseMeaning;
use super::kind::{Extent, TypeKind};
use super::values::{end_fault, end_number, value_fault};
use nddl_ast::TextKind;
use nddl_ast::expression::Value;
use nddl_symbols::{Fault, Scope, kind_if, note_at};

/// Notes what is wrong with a range behind this base, whose place is `at`.
pub fn note_range_faults(
    base: &BaseMeaning<'_>,
    decl: usize,
    at: u32,
    least: &Value,
    greatest: &Value,
    first: &mut Option<Fault>,
)
    ensures { first.new ≡ earliest_fault first.old
        (range_faults base.now.scope.now base.now.kind base.now.extent.now decl at least.now greatest.now) }
{
    let scope = base.scope;
    let kind = base.kind;
    if base.extent.is_ranged(kind) {
        let is_wrong = is_wrong_range(
            base.extent,
            end_number(scope, kind, least),
            end_number(scope, kind, greatest),
        );
        note_at(first, decl, at, kind_if(is_wrong, TextKind::NotInDomain));
        note_at(first, decl, least.place(), end_fault(scope, kind, least));
        note_at(
            first,
            decl,
            greatest.place(),
            end_fault(scope, kind, greatest),
        );
    } else {
        note_at(first, decl, least.place(), value_fault(scope, least));
        note_at(first, decl, least.place(), Some(TextKind::WrongType));
        note_at(first, decl, greatest.place(), value_fault(scope, greatest));
    }
}

/// Whether two ends are in the wrong order, or one of them lies outside.
pub fn is_wrong_range(extent: &Extent, least: Option<i32>, greatest: Option<i32>) -> bool
    ensures { result ≡ is_wrong_range extent.now least greatest }
{
    match (least, greatest) {
        (Some(least), Some(greatest)) => {
            !(least <= greatest && (extent.has(least) && extent.has(greatest)))
        }
        _ => false,
    }
}

/// The range between two values of this kind.
pub fn range_meaning(scope: &Scope, kind: TypeKind, least: &Value, greatest: &Value) -> Extent
    ensures { result ≡ extent_between (end_number scope.now kind least.now) (end_number scope.now kind greatest.now) }
{
    match (
        end_number(scope, kind, least),
        end_number(scope, kind, greatest),
    ) {
        (Some(least), Some(greatest)) => Extent::Range { least, greatest },
        _ => Extent::Whole,
    }
}
