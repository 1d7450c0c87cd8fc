//! The names that are read in the text of a rule, but for those in blocks.

ghost use Rattle.std.specs.Prelude.{◌≡◌, ◌+◌, ◌++◌, ◌∷◌, [], IfOk, OnOk};
ghost use Rattle.std.specs.List.{flat_map, position_from};
ghost use Rattle.std.specs.Option.{option_map};
ghost use Rattle.std.specs.Str.{bytes_eq};
ghost use Rattle.nddl_rules.specs.Reads.{asked_read, base_read, bounds_read, condition_read, expr_read, exprs_read, front_meaning, front_read, init_read, local_read, own_part, read_at, scope_meaning, scope_read, sources_of, type_read, value_read};

use super::sight::Sight;
use super::sources::NameSources;
use eu_index::NameIndex;
use eu_name::name::Part;
use eu_name::sequence::Sequence;
use eu_name::text::Text;
use model_core::variable::VarDecl;
use nddl_ast::expression::{BaseType, Bounds, Expr, Init, Type, Value};
use nddl_ast::name::{Name, Path};
use nddl_ast::statement::{Condition, Variable};
use nddl_symbols::builtin::builtin_number;
use nddl_terms::{Meaning, ReadName};
use std::alloc::AllocError;

// Puts the name at a byte that means this at the end, if it means anything.
fn push_read(
    at: u32,
    meaning: Option<Meaning>,
    names: &mut Sequence<ReadName>,
) -> Result<(), AllocError>
    ensures { OnOk result (names.new ≡ names.old ++ read_at at meaning) }
{
    match meaning {
        Some(meaning) => names.push(ReadName { at, meaning }),
        None => Ok(()),
    }
}

// ---- single names

// What the name means as one of the files, or of the language's own classes. There is no memory for 2^32 names.
fn scope_meaning(scope: &NameIndex, name: &Text) -> Result<Option<Meaning>, AllocError>
    ensures { IfOk result (λ meaning. meaning ≡ scope_meaning scope.now name.now) }
{
    match builtin_number(name.as_str()) {
        Some(number) => Ok(Some(Meaning::BuiltIn(number))),
        None => match scope.find(name) {
            Some(place) => place_in_scope(place),
            None => Ok(None),
        },
    }
}

// The name at this place of the scope.
fn place_in_scope(place: usize) -> Result<Option<Meaning>, AllocError>
    ensures { IfOk result (λ meaning. meaning ≡ Some (Meaning.Scope place)) }
{
    match u32::try_from(place) {
        Ok(place) => Ok(Some(Meaning::Scope(place))),
        Err(_) => Err(AllocError),
    }
}

// What the name means as a part of the token whose rule it is.
fn own_part(params: &[VarDecl], name: &Text) -> Result<Option<Part>, AllocError>
    ensures { IfOk result (λ part. part ≡ own_part params.now name.now) }
{
    match name.as_str() {
        "start" => Ok(Some(Part::Start)),
        "end" => Ok(Some(Part::End)),
        "duration" => Ok(Some(Part::Duration)),
        "object" => Ok(Some(Part::Object)),
        _ => parameter(params, name),
    }
}

// The parameter of this name. There is no memory for 2^16 of them.
fn parameter(params: &[VarDecl], name: &Text) -> Result<Option<Part>, AllocError>
    ensures { IfOk result (λ part. part
        ≡ option_map Part.Param (position_from (λ param. bytes_eq name.now param.name) 0 params.now)) }
{
    match parameter_place(params, name) {
        Some(place) => match u16::try_from(place) {
            Ok(place) => Ok(Some(Part::Param(place))),
            Err(_) => Err(AllocError),
        },
        None => Ok(None),
    }
}

fn parameter_place(params: &[VarDecl], name: &Text) -> Option<usize>
    ensures { result ≡ position_from (λ param. bytes_eq name.now param.name) 0 params.now }
{
    params
        .iter()
        .position(|param: &VarDecl| name.as_str() == param.name.as_str())
}

// What the name means at the front of a path.
fn front_meaning(
    sources: &NameSources<'_>,
    sight: &Sight,
    name: &Text,
) -> Result<Option<Meaning>, AllocError>
    ensures { IfOk result (λ meaning. meaning ≡ front_meaning (sources_of sources.now) sight.now name.now) }
{
    match sight.meaning(name) {
        Some(meaning) => Ok(Some(meaning)),
        None => match own_part(sources.params, name)? {
            Some(part) => Ok(Some(Meaning::Here(part))),
            None => scope_meaning(sources.scope, name),
        },
    }
}

/// Puts a name that is looked up in the files alone at the end.
pub fn push_scope_read(
    scope: &NameIndex,
    name: &Name,
    names: &mut Sequence<ReadName>,
) -> Result<(), AllocError>
    ensures { OnOk result (names.new ≡ names.old ++ scope_read scope.now name.now) }
{
    let meaning = scope_meaning(scope, &name.text)?;
    push_read(name.at, meaning, names)
}

// Puts a name at the front of a path, or among the values of a type, at the end.
fn push_front_read(
    sources: &NameSources<'_>,
    sight: &Sight,
    name: &Name,
    names: &mut Sequence<ReadName>,
) -> Result<(), AllocError>
    ensures { OnOk result (names.new ≡ names.old ++ front_read (sources_of sources.now) sight.now name.now) }
{
    let meaning = front_meaning(sources, sight, &name.text)?;
    push_read(name.at, meaning, names)
}

// ---- arguments

// Puts what is read in an argument at the end.
fn push_expr_read(
    sources: &NameSources<'_>,
    sight: &Sight,
    expr: &Expr,
    names: &mut Sequence<ReadName>,
) -> Result<(), AllocError>
    ensures { OnOk result (names.new ≡ names.old ++ expr_read (sources_of sources.now) sight.now expr.now) }
{
    match expr {
        Expr::Path(path) => push_front_read(sources, sight, &path.first, names),
        Expr::Literal(_) => Ok(()),
    }
}

/// Puts what is read in arguments at the end.
pub fn push_exprs_read(
    sources: &NameSources<'_>,
    sight: &Sight,
    exprs: &[Expr],
    names: &mut Sequence<ReadName>,
) -> Result<(), AllocError>
    ensures { OnOk result (names.new ≡ names.old ++ exprs_read (sources_of sources.now) sight.now exprs.now) }
{
    for expr in exprs {
        push_expr_read(sources, sight, expr, names)?;
    }
    Ok(())
}

// ---- types

// Puts what is read in a type at the end.
fn push_type_read(
    sources: &NameSources<'_>,
    sight: &Sight,
    declared: &Type,
    names: &mut Sequence<ReadName>,
) -> Result<(), AllocError>
    ensures { OnOk result (names.new ≡ names.old ++ type_read (sources_of sources.now) sight.now declared.now) }
{
    push_base_read(sources.scope, &declared.base, names)?;
    push_bounds_read(sources, sight, &declared.bounds, names)
}

fn push_base_read(
    scope: &NameIndex,
    base: &BaseType,
    names: &mut Sequence<ReadName>,
) -> Result<(), AllocError>
    ensures { OnOk result (names.new ≡ names.old ++ base_read scope.now base.now) }
{
    match base {
        BaseType::Named(name) => push_scope_read(scope, name, names),
        _ => Ok(()),
    }
}

fn push_bounds_read(
    sources: &NameSources<'_>,
    sight: &Sight,
    bounds: &Bounds,
    names: &mut Sequence<ReadName>,
) -> Result<(), AllocError>
    ensures { OnOk result (names.new ≡ names.old ++ bounds_read (sources_of sources.now) sight.now bounds.now) }
{
    match bounds {
        Bounds::All => Ok(()),
        Bounds::Range {
            least,
            greatest,
            ..
        } => {
            push_value_read(sources, sight, least, names)?;
            push_value_read(sources, sight, greatest, names)
        }
        Bounds::Set { values, .. } => push_values_read(sources, sight, values.as_slice(), names),
    }
}

fn push_values_read(
    sources: &NameSources<'_>,
    sight: &Sight,
    values: &[Value],
    names: &mut Sequence<ReadName>,
) -> Result<(), AllocError>
    ensures { OnOk result (names.new
        ≡ names.old ++ flat_map (value_read (sources_of sources.now) sight.now) values.now) }
{
    for value in values {
        push_value_read(sources, sight, value, names)?;
    }
    Ok(())
}

fn push_value_read(
    sources: &NameSources<'_>,
    sight: &Sight,
    value: &Value,
    names: &mut Sequence<ReadName>,
) -> Result<(), AllocError>
    ensures { OnOk result (names.new ≡ names.old ++ value_read (sources_of sources.now) sight.now value.now) }
{
    match value {
        Value::Name(name) => push_front_read(sources, sight, name, names),
        Value::Literal(_) => Ok(()),
    }
}

// ---- parts of statements

/// Puts what is read in a local at the end.
pub fn push_local_read(
    sources: &NameSources<'_>,
    sight: &Sight,
    variable: &Variable,
    names: &mut Sequence<ReadName>,
) -> Result<(), AllocError>
    ensures { OnOk result (names.new ≡ names.old ++ local_read (sources_of sources.now) sight.now variable.now) }
{
    push_type_read(sources, sight, &variable.declared, names)?;
    push_init_read(sources, sight, &variable.init, names)
}

// Puts what is read in what a local begins as at the end.
fn push_init_read(
    sources: &NameSources<'_>,
    sight: &Sight,
    init: &Option<Init>,
    names: &mut Sequence<ReadName>,
) -> Result<(), AllocError>
    ensures { OnOk result (names.new ≡ names.old ++ init_read (sources_of sources.now) sight.now init.now) }
{
    match init {
        Some(Init::Expr(expr)) => push_expr_read(sources, sight, expr, names),
        Some(Init::New(_)) => Ok(()),
        None => Ok(()),
    }
}

/// Puts what is read in the path of a relation with a label at the end.
pub fn push_asked_read(
    sources: &NameSources<'_>,
    sight: &Sight,
    path: &Path,
    names: &mut Sequence<ReadName>,
) -> Result<(), AllocError>
    ensures { OnOk result (names.new
        ≡ names.old ++ asked_read (sources_of sources.now) sight.now path.now.first path.now.rest) }
{
    if path.rest.is_empty() {
        Ok(())
    } else {
        push_front_read(sources, sight, &path.first, names)
    }
}

/// Puts what is read in what an `if` tests at the end.
pub fn push_condition_read(
    sources: &NameSources<'_>,
    sight: &Sight,
    condition: &Condition,
    names: &mut Sequence<ReadName>,
) -> Result<(), AllocError>
    ensures { OnOk result (names.new
        ≡ names.old ++ condition_read (sources_of sources.now) sight.now condition.now) }
{
    match condition {
        Condition::Truth(expr) => push_expr_read(sources, sight, expr, names),
        Condition::Equal(one, other) => push_both_read(sources, sight, one, other, names),
        Condition::NotEqual(one, other) => push_both_read(sources, sight, one, other, names),
    }
}

// Puts what is read in two arguments at the end.
fn push_both_read(
    sources: &NameSources<'_>,
    sight: &Sight,
    one: &Expr,
    other: &Expr,
    names: &mut Sequence<ReadName>,
) -> Result<(), AllocError>
    ensures { OnOk result (names.new ≡ names.old
        ++ (expr_read (sources_of sources.now) sight.now one.now ++ expr_read (sources_of sources.now) sight.now other.now)) }
{
    push_expr_read(sources, sight, one, names)?;
    push_expr_read(sources, sight, other, names)
}
