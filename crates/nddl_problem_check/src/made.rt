//! The globals that paths make by reading fields of what isn't a known object.

ghost use Rattle.std.specs.Prelude.{◌≡◌, ◌++◌, IfOk, OnOk, map};
ghost use Rattle.std.specs.List.{flat_map};
ghost use Rattle.nddl_hierarchy.specs.Facts.{facts_of};
ghost use Rattle.nddl_problem_check.specs.Made.{act_places, behind_part, call_places, expr_places, making_place, making_places, means_value, names_reading, path_places, reading_names};
ghost use Rattle.nddl_problem_check.specs.Posts.{place_here};

use crate::owners::file_path_denoted;
use crate::{Act, act_named};
use nddl_ast::declaration::Decl;
use nddl_ast::expression::Expr;
use nddl_ast::name::Name;
use nddl_ast::statement::Call;
use nddl_ast::{front, last};
use nddl_hierarchy::Basis;
use nddl_resolve::files::file_denoted;
use nddl_resolve::{Denoted, PathFault};
use nddl_symbols::Place;
use std::alloc::{AllocError, Global};

fn behind_part(names: &[Name]) -> &[Name]
    ensures { result.now ≡ behind_part names.now }
{
    match names {
        [_, more @ ..] => more,
        [] => &[],
    }
}

// The fields among the names that are read of variables, behind what means this.
fn names_reading(begin: Denoted, names: &[Name]) -> &[Name]
    ensures { result.now ≡ names_reading begin names.now }
{
    match begin {
        Denoted::Value { constant: true, .. } => &[],
        Denoted::Value {
            constant: false,
            ..
        } => names,
        Denoted::Token(_) => behind_part(names),
        Denoted::Class(_) | Denoted::Faulty => &[],
    }
}

fn means_value(found: Result<Denoted, PathFault>) -> bool
    ensures { result ≡ means_value found }
{
    match found {
        Ok(Denoted::Value { .. }) => true,
        Ok(Denoted::Token(_) | Denoted::Class(_) | Denoted::Faulty) => false,
        Err(_) => false,
    }
}

// The names of the path that read fields of variables.
fn reading_names<'a>(
    alloc: Global,
    basis: &Basis<'_>,
    first: &Name,
    names: &'a [Name],
) -> Result<&'a [Name], AllocError>
    ensures { IfOk result (λ reading. reading.now
        ≡ reading_names (facts_of basis.now) (record { first = first.now; rest = names.now })) }
{
    let found = file_path_denoted(alloc, basis, first, names)?;
    if !means_value(found) {
        return Ok(&[]);
    }
    match file_denoted(alloc, basis, &first.text)? {
        Some(begin) => Ok(names_reading(begin, names)),
        None => Ok(&[]),
    }
}

// Puts the place behind the others, once for each of the names.
fn push_for_each(
    decl: usize,
    at: u32,
    names: &[Name],
    places: &mut Vec<Place>,
) -> Result<(), AllocError>
    ensures { OnOk result (places.new.items ≡ places.old.items ++ map (λ name. place_here decl at) names.now) }
{
    for name in names {
        places.push(Place { decl, at })?;
    }
    Ok(())
}

// Puts the first of the names behind the others, once for each global that their path makes.
fn push_path(
    alloc: Global,
    basis: &Basis<'_>,
    decl: usize,
    first: &Name,
    names: &[Name],
    places: &mut Vec<Place>,
) -> Result<(), AllocError>
    ensures { OnOk result (places.new.items ≡ places.old.items
        ++ path_places (facts_of basis.now) decl (record { first = first.now; rest = names.now })) }
{
    let reading = reading_names(alloc, basis, first, names)?;
    push_for_each(decl, first.at, reading, places)
}

fn push_expr(
    alloc: Global,
    basis: &Basis<'_>,
    decl: usize,
    expr: &Expr,
    places: &mut Vec<Place>,
) -> Result<(), AllocError>
    ensures { OnOk result (places.new.items ≡ places.old.items ++ expr_places (facts_of basis.now) decl expr.now) }
{
    match expr {
        Expr::Path(path) => push_path(
            alloc,
            basis,
            decl,
            &path.first,
            path.rest.as_slice(),
            places,
        ),
        Expr::Literal(_) => Ok(()),
    }
}

fn push_exprs(
    alloc: Global,
    basis: &Basis<'_>,
    decl: usize,
    exprs: &[Expr],
    places: &mut Vec<Place>,
) -> Result<(), AllocError>
    ensures { OnOk result (places.new.items ≡ places.old.items
        ++ flat_map (expr_places (facts_of basis.now) decl) exprs.now) }
{
    for expr in exprs {
        push_expr(alloc, basis, decl, expr, places)?;
    }
    Ok(())
}

// Puts the places of what stands before an act behind the others: only before `specify` there are any.
fn push_front(
    alloc: Global,
    basis: &Basis<'_>,
    decl: usize,
    first: &Name,
    names: &[Name],
    act: Option<Act>,
    places: &mut Vec<Place>,
) -> Result<(), AllocError>
    ensures { OnOk result (places.new.items ≡ places.old.items
        ++ act_places (facts_of basis.now) decl (record { first = first.now; rest = names.now }) act) }
{
    match act {
        Some(Act::Specify) => push_path(alloc, basis, decl, first, names, places),
        Some(Act::Activate | Act::Reject | Act::Merge | Act::Close) => Ok(()),
        None => Ok(()),
    }
}

fn push_call(
    alloc: Global,
    basis: &Basis<'_>,
    decl: usize,
    call: &Call,
    places: &mut Vec<Place>,
) -> Result<(), AllocError>
    ensures { OnOk result (places.new.items ≡ places.old.items ++ call_places (facts_of basis.now) decl call.now) }
{
    match front(&call.path) {
        Some(names) => {
            let act = act_named(&last(&call.path).text);
            push_front(alloc, basis, decl, &call.path.first, names, act, places)
        }
        None => push_exprs(alloc, basis, decl, call.arguments.as_slice(), places),
    }
}

fn push_making(
    alloc: Global,
    basis: &Basis<'_>,
    number: usize,
    decl: &Decl,
    places: &mut Vec<Place>,
) -> Result<(), AllocError>
    ensures { OnOk result (places.new.items ≡ places.old.items ++ making_place (facts_of basis.now) number decl.now) }
{
    match decl {
        Decl::Call(call) => push_call(alloc, basis, number, call, places),
        _ => Ok(()),
    }
}

/// Puts where the declarations make globals behind the other places.
pub fn push_making_places(
    alloc: Global,
    basis: &Basis<'_>,
    decls: &[&Decl],
    places: &mut Vec<Place>,
) -> Result<(), AllocError>
    ensures { OnOk result (places.new.items ≡ places.old.items
        ++ making_places (facts_of basis.now) 0 (map (λ decl. decl.now) decls.now)) }
{
    for (number, decl) in decls.iter().enumerate() {
        push_making(alloc, basis, number, *decl, places)?;
    }
    Ok(())
}
