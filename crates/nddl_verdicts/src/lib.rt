//! Laws: files have a model or a first fault (`verdicts`), but for those of which no answer is right.
//! Nothing runs: `verdicts::files_have_verdicts()` states a law. The proofs of europa_outputs cite a lemma.
//! Knows nothing of how files are compiled. Proofs may change.
#![tactic(auto)]

pub mod verdicts;
