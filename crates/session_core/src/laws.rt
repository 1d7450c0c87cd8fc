//! Laws of the replies of a session, for whoever reads these by their definitions.

ghost use Rattle.session_loop.specs.Laws.{HasOneReply};
ghost use Rattle.session_core.specs.LineReplies.{AnswersLine};
ghost use Rattle.session_core.specs.Laws.{PrintedEndsProve, SolvedEndsProve};

use law_states::flawless::a_state_has_one_plan;
use script_lang::laws::lines_have_one_answer;

/// A law: each line of a sound database has one answer, and leaves one database.
pub fn each_line_has_one_reply()
    ensures { HasOneReply AnswersLine }
{
    lines_have_one_answer();
    a_state_has_one_plan();
}

/// A law: a plan that is printed as found is valid and agrees with the decisions, and where a search is told to be exhausted no
/// valid plan agrees with them.
pub fn printed_ends_prove()
    ensures { PrintedEndsProve }
{
    lines_have_one_answer();
}

/// A law: what a session writes is the replies to its lines, one after another, and the reply to each line that asks for a search
/// proves what it says of the database that the line finds.
pub fn solved_ends_prove()
    ensures { SolvedEndsProve }
{
    printed_ends_prove();
}
