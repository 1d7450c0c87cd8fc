//! Commands.

use domain_core::kind::Kind;
use eu_name::name_text::NameText;
use eu_name::sequence::Sequence;
use eu_name::text::Text;
use model_core::item::Rel;

/// An argument of a constraint as it is written: the name of a variable, or else a value. Which of the two it is, is for the
/// model to say.
pub type ArgumentText = Text;

/// What a line of a script asks for. Names are as they are spelled: whether the model has them is for the database to say.
#[derive(Drop)]
pub enum Command {
    /// Nothing: the line has no word.
    Empty,
    /// To give the variable the value. The value is a number or a decimal, which may lie outside the range of values, or a
    /// path of names.
    Specify {
        variable: NameText,
        value: Text,
    },
    /// To have the token take place.
    Activate {
        token: NameText,
    },
    /// To make the token one with the target.
    Merge {
        token: NameText,
        target: NameText,
    },
    /// To have the token not take place.
    Reject {
        token: NameText,
    },
    /// To put the one token before the other.
    Order {
        first: NameText,
        second: NameText,
    },
    /// To have the constraint hold of the arguments.
    Post {
        kind: Kind,
        arguments: Sequence<ArgumentText>,
    },
    /// To have the relation hold between the first token and the second.
    Relate {
        relation: Rel,
        first: NameText,
        second: NameText,
    },
    /// To take out the decision on the variable or the token.
    Reset {
        subject: NameText,
    },
    /// To take out the decision that puts the one token before the other.
    ResetOrder {
        first: NameText,
        second: NameText,
    },
    /// To take out the decision that posts the constraint.
    Withdraw {
        kind: Kind,
        arguments: Sequence<ArgumentText>,
    },
    /// To take out the decision that the relation holds between the tokens.
    Unrelate {
        relation: Rel,
        first: NameText,
        second: NameText,
    },
    /// To take the last step back.
    Undo,
    /// To tell what the variable may still be.
    Domain {
        variable: NameText,
    },
    /// To tell which tokens there are.
    Tokens,
    /// To tell which decisions stand.
    Decisions,
    /// To tell which flaw comes first.
    Flaws,
    /// To search for a plan, with so many visits and no more active tokens than the bound.
    Solve {
        steps: u32,
        tokens: u32,
    },
    /// To tell the conflict of the decisions that stand.
    Why,
    /// To tell the cycle of their time edges.
    Cycle,
    /// To end the session.
    Quit,
}

/// A decision that a command asks for. Names are as they are spelled.
#[derive(Drop)]
pub enum DecisionText {
    /// The variable has the value.
    Specify {
        variable: NameText,
        value: Text,
    },
    /// The token takes place.
    Activate {
        token: NameText,
    },
    /// The token is the target.
    Merge {
        token: NameText,
        target: NameText,
    },
    /// The token doesn't take place.
    Reject {
        token: NameText,
    },
    /// The first token ends before the second starts.
    Order {
        first: NameText,
        second: NameText,
    },
    /// The constraint holds of the arguments.
    Constrain {
        kind: Kind,
        arguments: Sequence<ArgumentText>,
    },
    /// The relation holds between the first token and the second.
    Relate {
        relation: Rel,
        first: NameText,
        second: NameText,
    },
}

/// Why a line asks for nothing.
#[derive(Clone, Copy, Debug, PartialEq, Eq)]
pub enum LineFault {
    /// It has more than 4,096 bytes.
    TooLong,
    /// Its words are no command.
    Syntax,
    /// There is no memory for what its command keeps.
    Memory,
}
