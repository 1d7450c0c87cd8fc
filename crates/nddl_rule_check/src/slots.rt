//! The tokens for which a rule asks.

ghost use Rattle.std.specs.Prelude.{◌≡◌, IfOk, OnOk};
ghost use Rattle.nddl_symbols.specs.Finding.{earliest_fault};
ghost use Rattle.nddl_hierarchy.specs.Facts.{facts_of};
ghost use Rattle.nddl_resolve.specs.Paths.{around_of};
ghost use Rattle.nddl_resolve.specs.Seen.{seen_in};
ghost use Rattle.nddl_rule_check.specs.Slots.{ask_faults, is_label, is_name_seen, label_faults, labelled_slot, own_slot, related_faults, relation_faults, unwanted_faults};

use super::arguments::note_understood;
use super::words::relation_named;
use eu_name::text::Text;
use nddl_ast::TextKind;
use nddl_ast::expression::Expr;
use nddl_ast::name::{Name, Path};
use nddl_ast::statement::Ask;
use nddl_hierarchy::{Basis, Spot};
use nddl_resolve::following::{token_denoted, unknown_at};
use nddl_resolve::{Around, Denoted, PathFault, SeenNames, asked_token, path_denoted};
use nddl_symbols::{Fault, note_at};
use std::alloc::{AllocError, Global};

// Whether one of these has the name, if there are any.
#[tactic(auto, using(crate::proofs::Labels::found_is_seen))]
fn is_name_in(name: &Text, some: Option<&SeenNames>) -> bool
    ensures { result ≡ is_name_seen name.now (seen_in some.entry) }
{
    match some {
        Some(names) => names.last(name).is_some(),
        None => false,
    }
}

// Whether the name is the label of a slot.
fn is_label(around: &Around<'_>, name: &Text) -> bool
    ensures { result ≡ is_label (around_of around.now) name.now }
{
    let is_hidden = is_name_in(name, around.formals)
        || (is_name_in(name, around.turns) || is_name_in(name, around.locals));
    !is_hidden && is_name_in(name, around.labels)
}

// Notes what is wrong with what isn't wanted where it stands.
fn note_unwanted(decl: usize, at: u32, found: Result<Denoted, PathFault>, first: &mut Option<Fault>)
    ensures { first.new ≡ earliest_fault first.old (unwanted_faults decl at found) }
{
    match found {
        Ok(_) => note_at(first, decl, at, Some(TextKind::WrongType)),
        Err(fault) => note_at(first, decl, fault.at, Some(fault.kind)),
    }
}

// Notes what is wrong with a name that has to be the label of a slot.
fn note_label(
    alloc: Global,
    spot: &Spot<'_>,
    around: &Around<'_>,
    path: &Path,
    first: &mut Option<Fault>,
) -> Result<(), AllocError>
    ensures { OnOk result (first.new ≡ earliest_fault first.old
        (label_faults (facts_of spot.now.basis) (around_of around.now) spot.now.decl path.now)) }
{
    if !is_label(around, &path.first.text) {
        let found = path_denoted(alloc, &spot.basis, around, path)?;
        note_unwanted(spot.decl, path.first.at, found, first);
    }
    Ok(())
}

/// The token for which a labelled relation asks, or what is wrong with the path.
pub fn labelled_slot(
    alloc: Global,
    basis: &Basis<'_>,
    around: &Around<'_>,
    path: &Path,
) -> Result<Result<Denoted, PathFault>, AllocError>
    ensures { IfOk result (λ found. found ≡ labelled_slot (facts_of basis.now) (around_of around.now) path.now) }
{
    match path.rest.as_slice() {
        [] => own_slot(alloc, basis, around, &path.first),
        _ => asked_token(alloc, basis, around, path),
    }
}

// A token of the predicate of this name, of the class whose rule it is.
fn own_slot(
    alloc: Global,
    basis: &Basis<'_>,
    around: &Around<'_>,
    name: &Name,
) -> Result<Result<Denoted, PathFault>, AllocError>
    ensures { IfOk result (λ found. found ≡ own_slot (facts_of basis.now) (around_of around.now) name.now) }
{
    match around.token {
        Some(token) => token_denoted(alloc, basis, name.at, Denoted::Class(token.class), name),
        None => Ok(unknown_at(name.at)),
    }
}

/// Notes what is wrong with a relation to a token that gets a label, but for the label.
pub fn note_ask(
    alloc: Global,
    spot: &Spot<'_>,
    around: &Around<'_>,
    ask: &Ask,
    first: &mut Option<Fault>,
) -> Result<(), AllocError>
    ensures { OnOk result (first.new ≡ earliest_fault first.old
        (ask_faults (facts_of spot.now.basis) (around_of around.now) spot.now.decl ask.now)) }
{
    match relation_named(&ask.word.text) {
        Some(_) => {
            let found = labelled_slot(alloc, &spot.basis, around, &ask.path)?;
            note_understood(spot.decl, found, first);
        }
        None => note_at(first, spot.decl, ask.word.at, Some(TextKind::Unknown)),
    }
    Ok(())
}

/// Notes what is wrong with the arguments of a relation whose name stands there.
pub fn note_relation(
    alloc: Global,
    spot: &Spot<'_>,
    around: &Around<'_>,
    at: u32,
    exprs: &[Expr],
    first: &mut Option<Fault>,
) -> Result<(), AllocError>
    ensures { OnOk result (first.new ≡ earliest_fault first.old
        (relation_faults (facts_of spot.now.basis) (around_of around.now) spot.now.decl at exprs.now)) }
{
    match exprs {
        [expr] => note_related(alloc, spot, around, expr, first),
        _ => {
            note_at(first, spot.decl, at, Some(TextKind::WrongCount));
            Ok(())
        }
    }
}

// Notes what is wrong with the one argument of a relation.
fn note_related(
    alloc: Global,
    spot: &Spot<'_>,
    around: &Around<'_>,
    expr: &Expr,
    first: &mut Option<Fault>,
) -> Result<(), AllocError>
    ensures { OnOk result (first.new ≡ earliest_fault first.old
        (related_faults (facts_of spot.now.basis) (around_of around.now) spot.now.decl expr.now)) }
{
    match expr {
        Expr::Path(path) => match path.rest.as_slice() {
            [] => note_label(alloc, spot, around, path, first),
            _ => {
                let found = asked_token(alloc, &spot.basis, around, path)?;
                note_understood(spot.decl, found, first);
                Ok(())
            }
        },
        Expr::Literal(literal) => {
            note_at(first, spot.decl, literal.at, Some(TextKind::WrongType));
            Ok(())
        }
    }
}
