//! The words for constraints and relations.

ghost use Rattle.std.specs.Prelude.{◌≡◌, map};
ghost use Rattle.std.specs.Map.{lookup};
ghost use Rattle.std.specs.Str.{bytes_eq};
ghost use Rattle.nddl_rule_check.specs.Constraints.{constraint_named, relation_named};

use domain_core::kind::Kind;
use eu_name::text::Text;
use model_core::item::Rel;

/// How each constraint is written.
const CONSTRAINTS: [(&'static str, Kind); 9] = [
    ("eq", Kind::Eq),
    ("neq", Kind::Neq),
    ("lt", Kind::Lt),
    ("leq", Kind::Leq),
    ("addEq", Kind::AddEq),
    ("mulEq", Kind::MulEq),
    ("testEQ", Kind::TestEq),
    ("testLEQ", Kind::TestLeq),
    ("allDiff", Kind::AllDiff),
];

/// How each relation is written.
const RELATIONS: [(&'static str, Rel); 16] = [
    ("any", Rel::Any),
    ("before", Rel::Before),
    ("after", Rel::After),
    ("meets", Rel::Meets),
    ("met_by", Rel::MetBy),
    ("equals", Rel::Equals),
    ("contains", Rel::Contains),
    ("contained_by", Rel::ContainedBy),
    ("starts", Rel::Starts),
    ("ends", Rel::Ends),
    ("parallels", Rel::Parallels),
    ("paralleled_by", Rel::ParalleledBy),
    ("starts_during", Rel::StartsDuring),
    ("contains_start", Rel::ContainsStart),
    ("ends_during", Rel::EndsDuring),
    ("contains_end", Rel::ContainsEnd),
];

// What stands in the row of this word, if there is one.
fn in_row_of<T: Copy>(rows: &[(&str, T)], word: &Text) -> Option<T>
    ensures { result ≡ lookup (λ written. bytes_eq word.now written) (map (λ row. (row.0.now, row.1)) rows.now) }
{
    for row in rows {
        if word.as_str() == row.0 {
            return Some(row.1);
        }
    }
    None
}

/// The constraint of this name.
#[tactic(auto, unfolding(crate::specs::Constraints::constraint_named))]
pub fn constraint_named(name: &Text) -> Option<Kind>
    ensures { result ≡ constraint_named name.now }
{
    in_row_of(&CONSTRAINTS, name)
}

/// The relation of this name.
#[tactic(auto, unfolding(crate::specs::Constraints::relation_named))]
pub fn relation_named(name: &Text) -> Option<Rel>
    ensures { result ≡ relation_named name.now }
{
    in_row_of(&RELATIONS, name)
}
