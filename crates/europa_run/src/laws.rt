//! Laws of runs, for whoever reads them by their definitions.

ghost use Rattle.europa_run.specs.Laws.{HasOneOutput, FaultLeavesFront, PlannedEndsProve, TriedEndsProve, ScriptedEndsProve};

use law_states::flawless::a_state_has_one_plan;
use plan_report::laws::texts_are_checked_once;
use run_load::laws::{posed_databases_are_sound, posed_once};
use session_core::laws::{each_line_has_one_reply, solved_ends_prove};

/// A law: over the same files and input words have one output, and one end.
pub fn words_have_one_output()
    ensures { HasOneOutput }
{
    posed_once();
    posed_databases_are_sound();
    each_line_has_one_reply();
    texts_are_checked_once();
    a_state_has_one_plan();
}

/// A law: what a run wrote before a fault comes first in the output that its words have, whatever that is.
pub fn fault_leaves_front()
    ensures { FaultLeavesFront }
{
    posed_once();
    each_line_has_one_reply();
    words_have_one_output();
}

/// A law: a plan that `plan` prints is valid and agrees with the decisions of the text, and where it ends as exhausted no valid plan
/// does.
pub fn planned_ends_prove()
    ensures { PlannedEndsProve }
{
    posed_once();
    posed_databases_are_sound();
}

/// A law: where `try` tells that a plan was found, the plan of what is found is valid and agrees with the decisions of the generated
/// text, and where it ends as exhausted no valid plan does.
pub fn tried_ends_prove()
    ensures { TriedEndsProve }
{
    posed_once();
    posed_databases_are_sound();
}

/// A law: the output of a script is made of the replies to its lines, and each reply to `solve` among them proves what it says.
pub fn scripted_ends_prove()
    ensures { ScriptedEndsProve }
{
    posed_once();
    solved_ends_prove();
}
