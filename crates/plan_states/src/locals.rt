//! The lines of locals.

ghost use Rattle.std.specs.Prelude.{◌≡◌, ◌<◌, ℕ, ℤ, length, Some, slice_get, MatchResult, IfOk, IfErr};
ghost use Rattle.eu_name.specs.declared.name.TokenName.{TokenName};
ghost use Rattle.eu_name.specs.declared.name.VarName.TheVariants as variables;
ghost use Rattle.model_core.specs.declared.rule.Rule.{Rule};
ghost use Rattle.model_core.specs.declared.rule.Slot.{Slot};
ghost use Rattle.model_core.specs.declared.variable.VarDecl.{VarDecl};
ghost use Rattle.model_core.specs.Decided.{IsRejected};
ghost use Rattle.model_core.specs.Lawful.{IsLawful};
ghost use Rattle.model_core.specs.Tokens.{HasRule, HasToken};
ghost use Rattle.model_core.specs.Views.{IsTokenAt};
ghost use Rattle.plan_defs.specs.declared.plan.Line.TheVariants as lines;
ghost use Rattle.plan_states.specs.declared.fault.PlanOfFault.TheVariants.{Open, Memory};
ghost use Rattle.plan_defs.specs.Surveying.{Surveys, IsLocalLine, IsLocalFlaw, IsRuleLine, IsRuleFlaw, IsLocalsLine, IsLocalsFlaw};
ghost use Rattle.plan_defs.specs.Flaws.{HasFlaw};
ghost use Rattle.plan_defs.specs.StatePlans.{IsSettledState};

use super::fault::PlanOfFault;
use super::parts::{name_at, pred_in};
use super::push_item;
use eu_name::name::VarName;
use model_core::model::Model;
use model_core::view::View;
use plan_defs::plan::Line;

// How many rules a token of the predicate of this number has.
fn count_rules(model: &Model, pred: u32) -> u16
    requires { IsLawful model.now }
    ensures { (number : ℕ) (rule : Rule) → HasRule model.now pred number rule → number < result }
{
    match pred_in(model, pred) {
        Some(found) => found.rules.len() as u16,
        None => 0,
    }
}

// How many locals its rule of this number has.
fn count_locals(model: &Model, pred: u32, rule: u16) -> u16
    requires { IsLawful model.now }
    ensures { (found : Rule) (number : ℕ) (variable : VarDecl)
        → HasRule model.now pred rule found → slice_get found.locals number ≡ Some variable → number < result }
{
    match model.rule_of(pred, rule) {
        Some(found) => found.locals.len() as u16,
        None => 0,
    }
}

// The line of this local of the token at the place.
fn local_line<V: View>(
    view: &V,
    place: u32,
    rule: u16,
    number: u16,
    value: i32,
) -> Result<Line, PlanOfFault>
    requires { (token : TokenName) × IsTokenAt (V.state view.now) place token }
    ensures line { IfOk result (λ line. (token : TokenName) × IsTokenAt (V.state view.now) place token
        × (line ≡ lines.Local (variables.Local token rule number) value)) }
    ensures memory { IfErr result (λ fault. fault ≡ Memory) }
{
    match name_at(view, place) {
        Ok(token) => Ok(Line::Local {
            name: VarName::Local {
                token,
                rule,
                number,
            },
            value,
        }),
        Err(fault) => Err(fault),
    }
}

// Puts the line of this local of the token at the place behind the others, if the state has the local.
fn add_local<V: View>(
    view: &V,
    place: u32,
    rule: u16,
    number: u16,
    lines: &mut Vec<Line>,
) -> Result<(), PlanOfFault>
    requires settled { IsSettledState (V.model view.now) (V.decisions view.now) (V.state view.now) }
    requires at { (token : TokenName) × IsTokenAt (V.state view.now) place token }
    requires kept { (token : TokenName) → IsTokenAt (V.state view.now) place token → IsRejected (V.decisions view.now) token → ⊥ }
    ensures { MatchResult result
        (λ _. (token : TokenName) → IsTokenAt (V.state view.now) place token
        → Surveys (V.model view.now) (V.decisions view.now) (V.state view.now)
        (IsLocalLine (V.model view.now) (V.decisions view.now) (V.state view.now) token rule number)
        (IsLocalFlaw (V.model view.now) (V.decisions view.now) (V.state view.now) token rule number) lines.old.items lines.new.items)
        (λ fault. fault ≡ Open → HasFlaw (V.model view.now) (V.decisions view.now) (V.state view.now)) }
{
    let Some(domain) = view.local_at(place, rule, number) else {
        return Ok(());
    };
    let Some(value) = domain.single() else {
        return Err(PlanOfFault::Open);
    };
    let line = local_line(view, place, rule, number, value)?;
    push_item(lines, line)
}

// Puts the lines of the locals of this rule of the token at the place behind the others.
fn add_rule<V: View>(
    model: &Model,
    view: &V,
    place: u32,
    pred: u32,
    rule: u16,
    lines: &mut Vec<Line>,
) -> Result<(), PlanOfFault>
    requires model { V.model view.now ≡ model.now }
    requires settled { IsSettledState (V.model view.now) (V.decisions view.now) (V.state view.now) }
    requires at { (token : TokenName) × IsTokenAt (V.state view.now) place token
        × ((slot : Slot) × HasToken model.now token slot × (slot.pred ≡ pred)) }
    requires kept { (token : TokenName) → IsTokenAt (V.state view.now) place token → IsRejected (V.decisions view.now) token → ⊥ }
    ensures { MatchResult result
        (λ _. (token : TokenName) → IsTokenAt (V.state view.now) place token
        → Surveys (V.model view.now) (V.decisions view.now) (V.state view.now)
        (IsRuleLine (V.model view.now) (V.decisions view.now) (V.state view.now) token rule)
        (IsRuleFlaw (V.model view.now) (V.decisions view.now) (V.state view.now) token rule) lines.old.items lines.new.items)
        (λ fault. fault ≡ Open → HasFlaw (V.model view.now) (V.decisions view.now) (V.state view.now)) }
{
    for number in 0..count_locals(model, pred, rule) {
        add_local(view, place, rule, number, lines)?;
    }
    Ok(())
}

/// Puts the lines of the locals of the token at the place, which is of the predicate of this number, behind the others.
pub fn add_locals<V: View>(
    model: &Model,
    view: &V,
    place: u32,
    pred: u32,
    lines: &mut Vec<Line>,
) -> Result<(), PlanOfFault>
    requires model { V.model view.now ≡ model.now }
    requires settled { IsSettledState (V.model view.now) (V.decisions view.now) (V.state view.now) }
    requires at { (token : TokenName) × IsTokenAt (V.state view.now) place token
        × ((slot : Slot) × HasToken model.now token slot × (slot.pred ≡ pred)) }
    requires kept { (token : TokenName) → IsTokenAt (V.state view.now) place token → IsRejected (V.decisions view.now) token → ⊥ }
    ensures { MatchResult result
        (λ _. (token : TokenName) → IsTokenAt (V.state view.now) place token
        → Surveys (V.model view.now) (V.decisions view.now) (V.state view.now)
        (IsLocalsLine (V.model view.now) (V.decisions view.now) (V.state view.now) token)
        (IsLocalsFlaw (V.model view.now) (V.decisions view.now) (V.state view.now) token) lines.old.items lines.new.items)
        (λ fault. fault ≡ Open → HasFlaw (V.model view.now) (V.decisions view.now) (V.state view.now)) }
{
    for rule in 0..count_rules(model, pred) {
        add_rule(model, view, place, pred, rule, lines)?;
    }
    Ok(())
}
