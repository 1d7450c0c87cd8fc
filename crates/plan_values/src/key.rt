//! Names as parts that stand elsewhere, so that what they name is found without a copy of them.

ghost use Rattle.std.specs.Prelude.{◌≡◌, List, ◌++◌, ◌∷◌, [], MatchBool};
ghost use Rattle.std.specs.Ordering.{MatchOrdering};
ghost use Rattle.eu_name.specs.declared.name.Step.{Step};
ghost use Rattle.eu_name.specs.declared.name.Part.TheVariants.{Start};
ghost use Rattle.eu_name.specs.declared.name.VarName.TheVariants as variables;
ghost use Rattle.eu_name.specs.NameOrder.{IsStepBefore, IsTokenBefore, IsVarBefore};
ghost use Rattle.model_core.specs.Names.{token_at};
ghost use Rattle.model_core.specs.Tokens.{root_token, slot_token};
ghost use Rattle.plan_defs.specs.Plans.{order_name};
ghost use Rattle.plan_values.specs.Keys.{step_of, key_token, key_name, IsLocal, HasProperName};

use eu_name::name::{Step, TokenName, VarName};
use plan_defs::plan::Line;
use std::cmp::Ordering;

/// A slot of a rule, by which a token asks for another one.
#[derive(Clone, Copy)]
pub struct Ask {
    pub rule: u16,
    pub slot: u32,
}

/// The name of a token: its root and its steps, with one more step behind them where there is one.
#[derive(Clone, Copy)]
pub struct TokenKey<'a> {
    pub root: u32,
    pub steps: &'a [Step],
    pub last: Option<Ask>,
}

/// The name of a token or of a local, by which a line of a plan is found.
#[derive(Clone, Copy)]
pub enum Key<'a> {
    Token(TokenKey<'a>),
    Local {
        token: TokenKey<'a>,
        rule: u16,
        number: u32,
    },
}

impl<'a> TokenKey<'a> {
    /// The name as it is.
    pub fn of(token: &'a TokenName) -> TokenKey<'a>
        ensures { key_token result ≡ token.now }
    {
        TokenKey {
            root: token.root,
            steps: token.steps.as_slice(),
            last: None,
        }
    }

    /// The root of this number.
    pub fn of_root(root: u32) -> TokenKey<'a>
        ensures { key_token result ≡ root_token root }
    {
        TokenKey {
            root,
            steps: &[],
            last: None,
        }
    }

    /// The token that the rule of this number of the token asks for by its slot of this number.
    pub fn of_slot(token: &'a TokenName, rule: u16, slot: u32) -> TokenKey<'a>
        ensures { key_token result ≡ slot_token token.now rule slot }
    {
        TokenKey {
            root: token.root,
            steps: token.steps.as_slice(),
            last: Some(Ask { rule, slot }),
        }
    }

    /// Whether it is the name of a root.
    pub fn is_root(self) -> bool
        ensures { MatchBool result
            ((key_token self.entry).steps ≡ [])
            ((key_token self.entry).steps ≡ [] → ⊥) }
    {
        match self.last {
            Some(_) => false,
            None => self.steps.is_empty(),
        }
    }

    // How the token is ordered with the other one.
    fn order(self, other: &TokenName) -> Ordering
        ensures { MatchOrdering result
            (IsTokenBefore (key_token self.entry) other.now)
            (key_token self.entry ≡ other.now)
            (IsTokenBefore other.now (key_token self.entry)) }
    {
        let steps = other.steps.as_slice();
        match self.last {
            None => order_parts(self.root, self.steps, other.root, steps),
            Some(ask) => order_asked(self.root, self.steps, ask, other.root, steps),
        }
    }
}

// How the token of these parts is ordered with the other one.
fn order_parts(root: u32, steps: &[Step], other: u32, others: &[Step]) -> Ordering
    ensures { MatchOrdering result
        (IsTokenBefore (token_at root steps.now) (token_at other others.now))
        (token_at root steps.now ≡ token_at other others.now)
        (IsTokenBefore (token_at other others.now) (token_at root steps.now)) }
{
    let by_count = steps.len().cmp(&others.len());
    let by_root = root.cmp(&other);
    let by_step = steps.cmp(&others);
    by_count.then(by_root.then(by_step))
}

// How the steps are ordered.
fn order_steps(ask: Ask, step: Step) -> Ordering
    ensures { MatchOrdering result
        (IsStepBefore (step_of ask) step)
        (step_of ask ≡ step)
        (IsStepBefore step (step_of ask)) }
{
    let by_rule = ask.rule.cmp(&step.rule);
    let by_slot = ask.slot.cmp(&u32::from(step.slot));
    by_rule.then(by_slot)
}

// How the token with one more step is ordered with the other one.
fn order_asked(root: u32, steps: &[Step], ask: Ask, other: u32, others: &[Step]) -> Ordering
    ensures { MatchOrdering result
        (IsTokenBefore (token_at root (steps.now ++ step_of ask ∷ [])) (token_at other others.now))
        (token_at root (steps.now ++ step_of ask ∷ []) ≡ token_at other others.now)
        (IsTokenBefore (token_at other others.now) (token_at root (steps.now ++ step_of ask ∷ []))) }
{
    match others.split_last() {
        None => Ordering::Greater,
        Some((last, front)) => {
            let by_front = order_parts(root, steps, other, front);
            let by_last = order_steps(ask, *last);
            by_front.then(by_last)
        }
    }
}

impl<'a> Key<'a> {
    // How it is ordered with the line of the token.
    fn order_token(self, other: &TokenName) -> Ordering
        ensures { MatchOrdering result
            (IsVarBefore (key_name self.entry) (variables.Token other.now Start))
            (key_name self.entry ≡ variables.Token other.now Start)
            (IsVarBefore (variables.Token other.now Start) (key_name self.entry)) }
    {
        match self {
            Key::Token(token) => token.order(other),
            Key::Local { token, .. } => token.order(other).then(Ordering::Greater),
        }
    }

    // How it is ordered with the line of the local.
    fn order_local(self, other: &VarName) -> Ordering
        requires { IsLocal other.now }
        ensures { MatchOrdering result
            (IsVarBefore (key_name self.entry) other.now)
            (key_name self.entry ≡ other.now)
            (IsVarBefore other.now (key_name self.entry)) }
    {
        match other {
            VarName::Local {
                token,
                rule,
                number,
            } => self.order_in(token, *rule, *number),
            VarName::Token(_, _) | VarName::Global(_) => unreachable!(),
        }
    }

    // How it is ordered with the local of this number of the rule of this number of the token.
    fn order_in(self, other: &TokenName, rule: u16, number: u16) -> Ordering
        ensures { MatchOrdering result
            (IsVarBefore (key_name self.entry) (variables.Local other.now rule number))
            (key_name self.entry ≡ variables.Local other.now rule number)
            (IsVarBefore (variables.Local other.now rule number) (key_name self.entry)) }
    {
        match self {
            Key::Token(token) => token.order(other).then(Ordering::Less),
            Key::Local {
                token,
                rule: own_rule,
                number: own,
            } => {
                let by_token = token.order(other);
                let by_rule = own_rule.cmp(&rule);
                let by_number = own.cmp(&u32::from(number));
                by_token.then(by_rule.then(by_number))
            }
        }
    }

    /// How what it names is ordered with what the line goes by.
    pub fn order(self, line: &Line) -> Ordering
        requires { HasProperName line.now }
        ensures { MatchOrdering result
            (IsVarBefore (key_name self.entry) (order_name line.now))
            (key_name self.entry ≡ order_name line.now)
            (IsVarBefore (order_name line.now) (key_name self.entry)) }
    {
        match line {
            Line::Token { name, .. } => self.order_token(name),
            Line::Merged { name, .. } => self.order_token(name),
            Line::Rejected { name } => self.order_token(name),
            Line::Local { name, .. } => self.order_local(name),
        }
    }
}
