//! Laws: what can't be missing of files that are compiled. The logic decides nothing that no code decides, so each says that the
//! contrary isn't so.

ghost use Rattle.nddl_verdicts.specs.Verdicts.{ProgramsHaveFacts, FilesHaveVerdicts};

/// A program has facts, and files have a model or a first fault, or they have no answer: too many classes or predicates, or
/// with nothing wrong a model that isn't lawful.
pub fn files_have_verdicts()
    ensures facts { ProgramsHaveFacts }
    ensures verdicts { FilesHaveVerdicts }
{}
