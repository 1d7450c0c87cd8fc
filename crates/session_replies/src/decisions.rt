//! The lines of decisions.

ghost use Rattle.std.specs.Prelude.{◌≡◌, List, ℕ, All, Option, OnOk, codes};
ghost use Rattle.model_core.specs.declared.variable.ValueKind.{ValueKind};
ghost use Rattle.model_core.specs.Lawful.{IsLawful, IsToken};
ghost use Rattle.plan_defs.specs.Refusals.{IsDeclared};
ghost use Rattle.script_lang.specs.Compared.{compared, IsFirstKind};
ghost use Rattle.session_replies.specs.Lines.{IsArgumentText, IsDecisionLine, IsLineOnToken, IsLineOnTokens, IsLineOnVariable, IsPostLine, IsRelateLine};
ghost use Rattle.session_replies.specs.Writable.{IsArgumentWritable, IsPostWritable, IsWritable};
ghost use Rattle.session_replies.specs.Written.{Writes, WritesArguments, WritesBehind, WritesCounted, WritesLines};

use super::counting::{put_count_line, put_line_feed, put_text};
use domain_core::kind::Kind;
use eu_name::name::{TokenName, VarName};
use model_core::decision::{ConArg, Decision};
use model_core::item::Rel;
use model_core::model::Model;
use model_core::variable::ValueKind;
use plan_text::writing::{put_shown, put_token, put_variable, put_word};
use script_lang::compared::{kind_among, kind_at};
use script_lang::kind_words::{constraint_word, relation_word};
use std::alloc::{AllocError, Global};

/// The word and the name of the token.
pub fn put_on_token(
    out: &mut Vec<u8>,
    alloc: Global,
    model: &Model,
    first: &[u8],
    token: &TokenName,
) -> Result<(), AllocError>
    requires lawful { IsLawful model.now }
    requires there { IsToken model.now token.now }
    ensures { OnOk result (Writes (IsLineOnToken model.now first.now token.now) out.old.items out.new.items) }
{
    put_text(out, first)?;
    put_token(out, b" ", alloc, model, token)
}

/// The word and the names of the two tokens.
pub fn put_on_tokens(
    out: &mut Vec<u8>,
    alloc: Global,
    model: &Model,
    first: &[u8],
    one: &TokenName,
    other: &TokenName,
) -> Result<(), AllocError>
    requires lawful { IsLawful model.now }
    requires one { IsToken model.now one.now }
    requires other { IsToken model.now other.now }
    ensures { OnOk result (Writes (IsLineOnTokens model.now first.now one.now other.now) out.old.items out.new.items) }
{
    put_on_token(out, alloc, model, first, one)?;
    put_token(out, b" ", alloc, model, other)
}

// The word, the name of the variable and the value, which is one that the variable is declared with.
fn put_on_variable(
    out: &mut Vec<u8>,
    alloc: Global,
    model: &Model,
    first: &[u8],
    name: &VarName,
    value: i32,
) -> Result<(), AllocError>
    requires lawful { IsLawful model.now }
    requires declared { IsDeclared model.now name.now value }
    ensures { OnOk result (Writes (IsLineOnVariable model.now first.now name.now value) out.old.items out.new.items) }
{
    put_text(out, first)?;
    put_variable(out, b" ", alloc, model, name)?;
    put_shown(out, b" ", model, model.kind_of(name), value)
}

// The argument, behind a space.
fn put_argument(
    out: &mut Vec<u8>,
    alloc: Global,
    model: &Model,
    kind: Option<ValueKind>,
    argument: &ConArg,
) -> Result<(), AllocError>
    requires lawful { IsLawful model.now }
    requires writable { IsArgumentWritable model.now kind argument.now }
    ensures { OnOk result (WritesBehind (codes " ") (IsArgumentText model.now kind argument.now) out.old.items out.new.items) }
{
    match argument {
        ConArg::Var(name) => put_variable(out, b" ", alloc, model, name),
        ConArg::Value(value) => match kind {
            Some(kind) => put_shown(out, b" ", model, kind, *value),
            None => unreachable!(),
        },
    }
}

// The arguments of the constraint, each behind a space.
fn put_arguments(
    out: &mut Vec<u8>,
    alloc: Global,
    model: &Model,
    kind: Kind,
    arguments: &[ConArg],
) -> Result<(), AllocError>
    requires lawful { IsLawful model.now }
    requires writable { IsPostWritable model.now kind arguments.now }
    ensures { OnOk result ((among : Option ValueKind) × (IsFirstKind model.now (compared kind arguments.now) among
        × WritesArguments model.now kind among arguments.now out.old.items out.new.items)) }
{
    let among = kind_among(model, kind, arguments);
    for (place, argument) in arguments.iter().enumerate() {
        put_argument(out, alloc, model, kind_at(kind, among, place), argument)?;
    }
    Ok(())
}

// The command that posts the constraint.
fn put_post(
    out: &mut Vec<u8>,
    alloc: Global,
    model: &Model,
    kind: Kind,
    arguments: &[ConArg],
) -> Result<(), AllocError>
    requires lawful { IsLawful model.now }
    requires writable { IsPostWritable model.now kind arguments.now }
    ensures { OnOk result (Writes (IsPostLine model.now kind arguments.now) out.old.items out.new.items) }
{
    put_word(out, b"post ", constraint_word(kind))?;
    put_arguments(out, alloc, model, kind, arguments)
}

// The command that makes the relation hold.
fn put_relate(
    out: &mut Vec<u8>,
    alloc: Global,
    model: &Model,
    relation: Rel,
    one: &TokenName,
    other: &TokenName,
) -> Result<(), AllocError>
    requires lawful { IsLawful model.now }
    requires one { IsToken model.now one.now }
    requires other { IsToken model.now other.now }
    ensures { OnOk result (Writes (IsRelateLine model.now relation one.now other.now) out.old.items out.new.items) }
{
    put_text(out, b"relate ")?;
    put_on_tokens(out, alloc, model, relation_word(relation), one, other)
}

// The command that makes the decision.
fn put_decision(
    out: &mut Vec<u8>,
    alloc: Global,
    model: &Model,
    decision: &Decision,
) -> Result<(), AllocError>
    requires lawful { IsLawful model.now }
    requires writable { IsWritable model.now decision.now }
    ensures { OnOk result (Writes (IsDecisionLine model.now decision.now) out.old.items out.new.items) }
{
    match decision {
        Decision::Specify(name, value) => {
            put_on_variable(out, alloc, model, b"specify", name, *value)
        }
        Decision::Activate(token) => put_on_token(out, alloc, model, b"activate", token),
        Decision::Merge(token, target) => {
            put_on_tokens(out, alloc, model, b"merge", token, target)
        }
        Decision::Reject(token) => put_on_token(out, alloc, model, b"reject", token),
        Decision::Order(one, other) => put_on_tokens(out, alloc, model, b"order", one, other),
        Decision::Constrain(kind, arguments) => {
            put_post(out, alloc, model, *kind, arguments.as_slice())
        }
        Decision::Relate(relation, one, other) => {
            put_relate(out, alloc, model, *relation, one, other)
        }
    }
}

// A line for each decision.
fn put_decisions(
    out: &mut Vec<u8>,
    alloc: Global,
    model: &Model,
    decisions: &[Decision],
) -> Result<(), AllocError>
    requires lawful { IsLawful model.now }
    requires writable { All (IsWritable model.now) decisions.now }
    ensures { OnOk result (WritesLines (IsDecisionLine model.now) decisions.now out.old.items out.new.items) }
{
    for decision in decisions {
        put_decision(out, alloc, model, decision)?;
        put_line_feed(out)?;
    }
    Ok(())
}

/// The line of the word and the number of decisions, and a line for each. Decisions of a settled list of a lawful model are writable (`settled_lists_are_writable`).
pub fn put_decision_lines(
    out: &mut Vec<u8>,
    alloc: Global,
    model: &Model,
    word: &[u8],
    decisions: &[Decision],
) -> Result<(), AllocError>
    requires lawful { IsLawful model.now }
    requires writable { All (IsWritable model.now) decisions.now }
    ensures { OnOk result (WritesCounted word.now (IsDecisionLine model.now) decisions.now out.old.items out.new.items) }
{
    put_count_line(out, word, decisions.len())?;
    put_decisions(out, alloc, model, decisions)
}
