//! The words for the constraints and relations that a decision may post.

ghost use Rattle.std.specs.Prelude.{◌≡◌};
ghost use Rattle.script_lang.specs.KindWords.{constraint_named, constraint_word, relation_named, relation_word};

use domain_core::kind::Kind;
use model_core::item::Rel;

/// The constraints that a decision may post.
const POSTED_KINDS: [Kind; 8] = [
    Kind::Eq,
    Kind::Neq,
    Kind::Lt,
    Kind::Leq,
    Kind::AddEq,
    Kind::MulEq,
    Kind::TestEq,
    Kind::TestLeq,
];

/// All relations.
const RELATIONS: [Rel; 16] = [
    Rel::Any,
    Rel::Before,
    Rel::After,
    Rel::Meets,
    Rel::MetBy,
    Rel::Equals,
    Rel::Contains,
    Rel::ContainedBy,
    Rel::Starts,
    Rel::Ends,
    Rel::Parallels,
    Rel::ParalleledBy,
    Rel::StartsDuring,
    Rel::ContainsStart,
    Rel::EndsDuring,
    Rel::ContainsEnd,
];

/// How a constraint is written.
pub fn constraint_word(kind: Kind) -> &'static [u8]
    ensures { result.now ≡ constraint_word kind }
{
    match kind {
        Kind::Eq => b"eq",
        Kind::Neq => b"neq",
        Kind::Lt => b"lt",
        Kind::Leq => b"leq",
        Kind::AddEq => b"addEq",
        Kind::MulEq => b"mulEq",
        Kind::TestEq => b"testEQ",
        Kind::TestLeq => b"testLEQ",
        Kind::AllDiff => b"allDiff",
        Kind::Field(_) => b"field",
    }
}

/// How a relation is written.
pub fn relation_word(relation: Rel) -> &'static [u8]
    ensures { result.now ≡ relation_word relation }
{
    match relation {
        Rel::Any => b"any",
        Rel::Before => b"before",
        Rel::After => b"after",
        Rel::Meets => b"meets",
        Rel::MetBy => b"met_by",
        Rel::Equals => b"equals",
        Rel::Contains => b"contains",
        Rel::ContainedBy => b"contained_by",
        Rel::Starts => b"starts",
        Rel::Ends => b"ends",
        Rel::Parallels => b"parallels",
        Rel::ParalleledBy => b"paralleled_by",
        Rel::StartsDuring => b"starts_during",
        Rel::ContainsStart => b"contains_start",
        Rel::EndsDuring => b"ends_during",
        Rel::ContainsEnd => b"contains_end",
    }
}

/// The constraint that is written so, if a decision may post one.
#[tactic(auto, unfolding(crate::specs::KindWords::constraint_named))]
pub fn constraint_named(word: &[u8]) -> Option<Kind>
    ensures { result ≡ constraint_named word.now }
{
    POSTED_KINDS
        .iter()
        .copied()
        .find(|kind| constraint_word(*kind) == word)
}

/// The relation that is written so, if there is one.
#[tactic(auto, unfolding(crate::specs::KindWords::relation_named))]
pub fn relation_named(word: &[u8]) -> Option<Rel>
    ensures { result ≡ relation_named word.now }
{
    RELATIONS
        .iter()
        .copied()
        .find(|relation| relation_word(*relation) == word)
}
