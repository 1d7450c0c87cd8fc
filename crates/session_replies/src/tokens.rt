//! The lines of tokens, each with what has become of it.

ghost use Rattle.std.specs.Prelude.{◌≡◌, ℕ, List, All, OnOk, codes};
ghost use Rattle.eu_name.specs.declared.name.TokenName.{TokenName as Token};
ghost use Rattle.model_core.specs.declared.view.TokenState.TheVariants as standing;
ghost use Rattle.model_core.specs.Lawful.{IsLawful, IsToken};
ghost use Rattle.model_core.specs.TokenStates.{HasTokenState};
ghost use Rattle.model_core.specs.Views.{IsTokenAt};
ghost use Rattle.session_replies.specs.Lines.{IsStateText, IsTokenLine};
ghost use Rattle.session_replies.specs.Written.{WritesBehind, WritesCounted, WritesLine, WritesLines};

use super::counting::{put_count_line, put_line_feed, put_text};
use super::decisions::put_on_token;
use super::places::{state_of, token_of};
use eu_name::name::TokenName;
use model_core::model::Model;
use model_core::view::{TokenState, View};
use plan_text::names::pred_of;
use plan_text::writing::{put_predicate, put_token};
use std::alloc::{AllocError, Global};

// What has become of a token, behind a space.
fn put_state<V: View>(
    out: &mut Vec<u8>,
    alloc: Global,
    model: &Model,
    view: &V,
    state: TokenState,
) -> Result<(), AllocError>
    requires lawful { IsLawful model.now }
    requires tokens { All (IsToken model.now) (V.state view.now).tokens }
    requires there { (place : ℕ) → state ≡ standing.Merged place → (target : Token) × IsTokenAt (V.state view.now) place target }
    ensures { OnOk result (WritesBehind (codes " ") (IsStateText model.now (V.state view.now) state) out.old.items out.new.items) }
{
    match state {
        TokenState::Inactive => put_text(out, b" inactive"),
        TokenState::Active => put_text(out, b" active"),
        TokenState::Fact => put_text(out, b" fact"),
        TokenState::Merged(place) => {
            put_on_token(out, alloc, model, b" merged", token_of(view, place))
        }
        TokenState::Rejected => put_text(out, b" rejected"),
    }
}

// The line of the token, of which this has become.
fn put_token_line<V: View>(
    out: &mut Vec<u8>,
    alloc: Global,
    model: &Model,
    view: &V,
    token: &TokenName,
    state: TokenState,
) -> Result<(), AllocError>
    requires lawful { IsLawful model.now }
    requires tokens { All (IsToken model.now) (V.state view.now).tokens }
    requires there { IsToken model.now token.now }
    requires state { HasTokenState model.now (V.state view.now) (V.decisions view.now) token.now state }
    ensures { OnOk result (WritesLine (IsTokenLine model.now (V.state view.now) (V.decisions view.now) token.now)
        out.old.items out.new.items) }
{
    put_token(out, b"", alloc, model, token)?;
    put_predicate(out, model, pred_of(model, token))?;
    put_state(out, alloc, model, view, state)?;
    put_line_feed(out)
}

// A line for each token.
fn put_tokens<V: View>(
    out: &mut Vec<u8>,
    alloc: Global,
    model: &Model,
    view: &V,
) -> Result<(), AllocError>
    requires lawful { IsLawful model.now }
    requires model { V.model view.now ≡ model.now }
    requires tokens { All (IsToken model.now) (V.state view.now).tokens }
    ensures { OnOk result (WritesLines (IsTokenLine model.now (V.state view.now) (V.decisions view.now))
        (V.state view.now).tokens out.old.items out.new.items) }
{
    for place in 0..view.count() {
        put_token_line(
            out,
            alloc,
            model,
            view,
            token_of(view, place),
            state_of(view, place),
        )?;
    }
    Ok(())
}

/// The line of the number of tokens, and a line for each.
pub fn put_token_lines<V: View>(
    out: &mut Vec<u8>,
    alloc: Global,
    model: &Model,
    view: &V,
) -> Result<(), AllocError>
    requires lawful { IsLawful model.now }
    requires model { V.model view.now ≡ model.now }
    requires tokens { All (IsToken model.now) (V.state view.now).tokens }
    ensures { OnOk result (WritesCounted (codes "tokens") (IsTokenLine model.now (V.state view.now) (V.decisions view.now))
        (V.state view.now).tokens out.old.items out.new.items) }
{
    put_count_line(out, b"tokens", view.count() as usize)?;
    put_tokens(out, alloc, model, view)
}
