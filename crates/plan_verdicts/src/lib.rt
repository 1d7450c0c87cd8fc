//! Laws: it can't be that a plan has no verdict, or the text of one no line that `check` prints (`verdicts`).
//! Nothing runs: `verdicts::texts_are_checked()` states a law. The proofs of europa_outputs cite a lemma.
//! Knows nothing of how plans are checked, decisions, the database and the search. Proofs may change.
#![tactic(auto)]

pub mod verdicts;
