//! Commands, sorted by what they ask for.

ghost use Rattle.std.specs.Prelude.{◌≡◌};
ghost use Rattle.session_core.specs.Asking.{asked_command};

use domain_core::kind::Kind;
use eu_name::name_text::NameText;
use eu_name::sequence::Sequence;
use model_core::item::Rel;
use script_lang::{ArgumentText, Command, DecisionText};

/// What a command asks for.
#[derive(Drop)]
pub enum Asked {
    /// Nothing.
    Nothing,
    /// To take a decision.
    Decision(DecisionText),
    /// To take a decision out.
    Reset(SubjectText),
    /// To take the last step back.
    Undo,
    /// To tell something, which changes nothing.
    Tell(Query),
    /// To search for a plan, with so many visits and no more active tokens than the bound.
    Search { steps: u32, tokens: u32 },
    /// To end the session.
    Quit,
}

/// What a decision is on that is to be taken out. Names are as they are spelled.
#[derive(Drop)]
pub enum SubjectText {
    /// A variable or a token.
    Named(NameText),
    /// That the one token is before the other.
    Order(NameText, NameText),
    /// That the constraint holds of the arguments.
    Constraint {
        kind: Kind,
        arguments: Sequence<ArgumentText>,
    },
    /// That the relation holds between the two tokens.
    Relation {
        relation: Rel,
        first: NameText,
        second: NameText,
    },
}

/// What is to be told.
#[derive(Drop)]
pub enum Query {
    /// What the variable may still be.
    Domain(NameText),
    /// Which tokens there are.
    Tokens,
    /// Which decisions stand.
    Decisions,
    /// Which flaw comes first.
    Flaw,
    /// The conflict of the decisions that stand.
    Conflict,
    /// The cycle of their time edges.
    Cycle,
}

/// What the command asks for.
pub fn sort_command(command: Command) -> Asked
    ensures { asked_command result ≡ command }
{
    match command {
        Command::Empty => Asked::Nothing,
        Command::Specify { variable, value } => {
            Asked::Decision(DecisionText::Specify { variable, value })
        }
        Command::Activate { token } => Asked::Decision(DecisionText::Activate { token }),
        Command::Merge { token, target } => Asked::Decision(DecisionText::Merge { token, target }),
        Command::Reject { token } => Asked::Decision(DecisionText::Reject { token }),
        Command::Order { first, second } => Asked::Decision(DecisionText::Order { first, second }),
        Command::Post { kind, arguments } => {
            Asked::Decision(DecisionText::Constrain { kind, arguments })
        }
        Command::Relate {
            relation,
            first,
            second,
        } => Asked::Decision(DecisionText::Relate {
            relation,
            first,
            second,
        }),
        Command::Reset { subject } => Asked::Reset(SubjectText::Named(subject)),
        Command::ResetOrder { first, second } => Asked::Reset(SubjectText::Order(first, second)),
        Command::Withdraw { kind, arguments } => {
            Asked::Reset(SubjectText::Constraint { kind, arguments })
        }
        Command::Unrelate {
            relation,
            first,
            second,
        } => Asked::Reset(SubjectText::Relation {
            relation,
            first,
            second,
        }),
        Command::Undo => Asked::Undo,
        Command::Domain { variable } => Asked::Tell(Query::Domain(variable)),
        Command::Tokens => Asked::Tell(Query::Tokens),
        Command::Decisions => Asked::Tell(Query::Decisions),
        Command::Flaws => Asked::Tell(Query::Flaw),
        Command::Solve { steps, tokens } => Asked::Search { steps, tokens },
        Command::Why => Asked::Tell(Query::Conflict),
        Command::Cycle => Asked::Tell(Query::Cycle),
        Command::Quit => Asked::Quit,
    }
}
