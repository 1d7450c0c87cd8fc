//! Whole replies, made of lines.

ghost use Rattle.std.specs.Prelude.{◌≡◌, List, ℕ, All, Some, IfOk, codes};
ghost use Rattle.std.specs.List.{AllZip};
ghost use Rattle.model_core.specs.declared.variable.Base.{Base};
ghost use Rattle.model_core.specs.Lawful.{IsLawful, IsToken};
ghost use Rattle.model_core.specs.Variables.{HasBase, IsInBase};
ghost use Rattle.plan_defs.specs.Flaws as named;
ghost use Rattle.flaw_core.specs.Places.{IsFlawAt};
ghost use Rattle.flaw_core.specs.Rules.{IsFirstAt, IsLeastFor};
ghost use Rattle.session_replies.specs.Lines.{IsDecisionLine, IsDomainLine, IsEdgeLine, IsFlawLine, IsTokenLine, counted_lines, with_line_feed};
ghost use Rattle.session_replies.specs.Writable.{IsEdgeWritable, IsWritable};

use super::counting::put_text;
use super::decisions::put_decision_lines;
use super::domains::put_domain_line;
use super::edges::put_edge_lines;
use super::flaws::put_flaw_line;
use super::tokens::put_token_lines;
use db_edges::edge::NamedEdge;
use domain_core::domain::Dom;
use eu_name::bytes::Bytes;
use eu_name::name::VarName;
use flaw_core::flaw::Flaw;
use model_core::decision::Decision;
use model_core::model::Model;
use model_core::view::View;
use std::alloc::{AllocError, Global};

/// The variable with its domain.
pub fn domain_reply(
    alloc: Global,
    model: &Model,
    variable: &VarName,
    domain: &Dom,
) -> Result<Bytes, AllocError>
    requires lawful { IsLawful model.now }
    requires declared { (base : Base) × HasBase model.now variable.now base × IsInBase domain.now base }
    ensures { IfOk result (λ reply. (line : List ℕ) × (IsDomainLine model.now variable.now domain.now line
        × (reply ≡ with_line_feed line))) }
{
    let mut out = Vec::new(alloc);
    put_domain_line(&mut out, alloc, model, variable, domain)?;
    Ok(Bytes::from_vec(out))
}

/// The decisions, behind a line of the word and their number.
pub fn decisions_reply(
    alloc: Global,
    model: &Model,
    word: &[u8],
    decisions: &[Decision],
) -> Result<Bytes, AllocError>
    requires lawful { IsLawful model.now }
    requires writable { All (IsWritable model.now) decisions.now }
    ensures { IfOk result (λ reply. (lines : List (List ℕ)) × (AllZip (IsDecisionLine model.now) decisions.now lines
        × (reply ≡ counted_lines word.now lines))) }
{
    let mut out = Vec::new(alloc);
    put_decision_lines(&mut out, alloc, model, word, decisions)?;
    Ok(Bytes::from_vec(out))
}

/// The tokens of the view in order, each with what has become of it, behind a line of their number.
pub fn tokens_reply<V: View>(alloc: Global, model: &Model, view: &V) -> Result<Bytes, AllocError>
    requires lawful { IsLawful model.now }
    requires model { V.model view.now ≡ model.now }
    requires tokens { All (IsToken model.now) (V.state view.now).tokens }
    ensures { IfOk result (λ reply. (lines : List (List ℕ))
        × (AllZip (IsTokenLine model.now (V.state view.now) (V.decisions view.now)) (V.state view.now).tokens lines
        × (reply ≡ counted_lines (codes "tokens") lines))) }
{
    let mut out = Vec::new(alloc);
    put_token_lines(&mut out, alloc, model, view)?;
    Ok(Bytes::from_vec(out))
}

/// The edges of a cycle, behind a line of their number. Those of a list that can be written can be (`edges_writable`, `cycle_writable`).
pub fn cycle_reply(alloc: Global, model: &Model, edges: &[NamedEdge]) -> Result<Bytes, AllocError>
    requires lawful { IsLawful model.now }
    requires writable { All (IsEdgeWritable model.now) edges.now }
    ensures { IfOk result (λ reply. (lines : List (List ℕ)) × (AllZip (IsEdgeLine model.now) edges.now lines
        × (reply ≡ counted_lines (codes "cycle") lines))) }
{
    let mut out = Vec::new(alloc);
    put_edge_lines(&mut out, alloc, model, edges)?;
    Ok(Bytes::from_vec(out))
}

/// The first flaw of a least state, with the number of its choices.
pub fn flaw_reply<V: View>(
    alloc: Global,
    model: &Model,
    view: &V,
    flaw: Flaw,
    count: u32,
) -> Result<Bytes, AllocError>
    requires model { V.model view.now ≡ model.now }
    requires least { IsLeastFor (V.model view.now) (V.decisions view.now) (V.state view.now) }
    requires first { IsFirstAt model.now (V.decisions view.now) (V.state view.now) (Some flaw) }
    ensures { IfOk result (λ reply. (subject : named.Flaw) → IsFlawAt (V.state view.now) flaw subject
        → (line : List ℕ) × (IsFlawLine model.now subject count line × (reply ≡ with_line_feed line))) }
{
    let mut out = Vec::new(alloc);
    put_flaw_line(&mut out, alloc, model, view, flaw, count)?;
    Ok(Bytes::from_vec(out))
}

/// That there is no flaw.
pub fn no_flaw_reply(alloc: Global) -> Result<Bytes, AllocError>
    ensures { IfOk result (λ reply. reply ≡ with_line_feed (codes "flaw none")) }
{
    let mut out = Vec::new(alloc);
    put_text(&mut out, b"flaw none\n")?;
    Ok(Bytes::from_vec(out))
}
