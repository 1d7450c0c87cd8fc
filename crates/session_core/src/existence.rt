//! Laws: what can't be missing in a session over a sound database. The logic decides nothing that no code decides, so each says that
//! the contrary isn't so.

ghost use Rattle.session_core.specs.Existence.{DatabasesCollapseOrHaveLeast, CollapsesHaveCycles, PlainCommandsHaveReplies, FlawlessStatesHavePlanTexts, SearchesHaveReplies, LinesHaveAnswers, LinesHaveSessions};

/// The decisions that stand leave nothing, and their cycle can be told, or they have a least state; and each command that asks for no
/// search has a reply, which leaves a sound database.
pub fn commands_have_replies()
    ensures least { DatabasesCollapseOrHaveLeast }
    ensures cycles { CollapsesHaveCycles }
    ensures plain { PlainCommandsHaveReplies }
{}

/// A search has a reply; so each line has an answer that leaves a sound database, and lines have a session.
pub fn lines_have_sessions()
    ensures plans { FlawlessStatesHavePlanTexts }
    ensures searches { SearchesHaveReplies }
    ensures answers { LinesHaveAnswers }
    ensures sessions { LinesHaveSessions }
{}
