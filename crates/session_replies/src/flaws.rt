//! The line of a flaw.

ghost use Rattle.std.specs.Prelude.{◌≡◌, Some, OnOk, codes};
ghost use Rattle.eu_name.specs.declared.name.TokenName.{TokenName as Token};
ghost use Rattle.eu_name.specs.declared.name.VarName.{VarName as Variable};
ghost use Rattle.model_core.specs.declared.variable.Base.{Base};
ghost use Rattle.model_core.specs.Lawful.{IsLawful, IsToken};
ghost use Rattle.model_core.specs.Variables.{HasBase};
ghost use Rattle.model_core.specs.Views.{IsTokenAt};
ghost use Rattle.plan_defs.specs.Flaws as named;
ghost use Rattle.flaw_core.specs.Places.{IsFlawAt, IsVarAt};
ghost use Rattle.flaw_core.specs.Rules.{IsFirstAt, IsLeastFor};
ghost use Rattle.session_replies.specs.Lines.{IsFlawLine, IsFlawText, IsLineOnToken, IsLineOnTokens, IsVariableWord};
ghost use Rattle.session_replies.specs.Writable.{IsFlawWritable};
ghost use Rattle.session_replies.specs.Written.{Writes, WritesBehind, WritesLine};

use super::counting::{put_count, put_line_feed, put_text};
use super::decisions::{put_on_token, put_on_tokens};
use super::places::token_of;
use flaw_core::flaw::{Flaw, VarPlace};
use flaw_core::variable_name;
use model_core::model::Model;
use model_core::view::View;
use plan_text::writing::put_variable;
use std::alloc::{AllocError, Global};

// The name of the variable at the place, behind the gap.
fn put_unbound<V: View>(
    out: &mut Vec<u8>,
    gap: &[u8],
    alloc: Global,
    model: &Model,
    view: &V,
    at: VarPlace,
) -> Result<(), AllocError>
    requires lawful { IsLawful model.now }
    requires there { (name : Variable) × (IsVarAt (V.state view.now) at name × ((base : Base) × HasBase model.now name base)) }
    ensures { OnOk result ((name : Variable) → IsVarAt (V.state view.now) at name
        → WritesBehind gap.now (IsVariableWord model.now name) out.old.items out.new.items) }
{
    let name = variable_name(view, at)?;
    put_variable(out, gap, alloc, model, &name)
}

// What the flaw is about.
fn put_subject<V: View>(
    out: &mut Vec<u8>,
    alloc: Global,
    model: &Model,
    view: &V,
    flaw: Flaw,
) -> Result<(), AllocError>
    requires lawful { IsLawful model.now }
    requires there { (subject : named.Flaw) × (IsFlawAt (V.state view.now) flaw subject × IsFlawWritable model.now subject) }
    ensures { OnOk result ((subject : named.Flaw) → IsFlawAt (V.state view.now) flaw subject
        → Writes (IsFlawText model.now subject) out.old.items out.new.items) }
{
    match flaw {
        Flaw::Token(place) => put_on_token(out, alloc, model, b"token", token_of(view, place)),
        Flaw::Value(at) => put_unbound(out, b"variable ", alloc, model, view, at),
        Flaw::Pair(one, other) => {
            let (first, second) = (token_of(view, one), token_of(view, other));
            put_on_tokens(out, alloc, model, b"order", first, second)
        }
        Flaw::Time(at) => put_unbound(out, b"time ", alloc, model, view, at),
    }
}

/// The line of the first flaw of a least state, with the number of its choices.
pub fn put_flaw_line<V: View>(
    out: &mut Vec<u8>,
    alloc: Global,
    model: &Model,
    view: &V,
    flaw: Flaw,
    count: u32,
) -> Result<(), AllocError>
    requires model { V.model view.now ≡ model.now }
    requires least { IsLeastFor (V.model view.now) (V.decisions view.now) (V.state view.now) }
    requires first { IsFirstAt model.now (V.decisions view.now) (V.state view.now) (Some flaw) }
    ensures { OnOk result ((subject : named.Flaw) → IsFlawAt (V.state view.now) flaw subject
        → WritesLine (IsFlawLine model.now subject count) out.old.items out.new.items) }
{
    put_text(out, b"flaw ")?;
    put_subject(out, alloc, model, view, flaw)?;
    put_count(out, b" choices ", count as usize)?;
    put_line_feed(out)
}
