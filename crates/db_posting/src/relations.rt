//! What temporal relations compare.

ghost use Rattle.std.specs.Prelude.{◌≡◌};
ghost use Rattle.eu_name.specs.declared.name.TokenName.{TokenName};
ghost use Rattle.plan_defs.specs.Claims.{relates};
ghost use Rattle.db_posting.specs.Posted.{comparisons_claim};

use model_core::item::Rel;

/// The start or the end of the token of a rule, or of the other one, which the rule asks for.
#[derive(Clone, Copy)]
pub enum Moment {
    Start,
    End,
    OtherStart,
    OtherEnd,
}

/// What is claimed of two moments.
#[derive(Clone, Copy)]
pub enum Comparison {
    AtMost(Moment, Moment),
    Equal(Moment, Moment),
}

/// What the relation claims.
pub fn comparisons(rel: Rel) -> &'static [Comparison]
    ensures { (one other : TokenName) → comparisons_claim one other result.now ≡ relates rel one other }
{
    match rel {
        Rel::Any => &[],
        Rel::Before => &[Comparison::AtMost(Moment::End, Moment::OtherStart)],
        Rel::After => &[Comparison::AtMost(Moment::OtherEnd, Moment::Start)],
        Rel::Meets => &[Comparison::Equal(Moment::End, Moment::OtherStart)],
        Rel::MetBy => &[Comparison::Equal(Moment::OtherEnd, Moment::Start)],
        Rel::Equals => &[
            Comparison::Equal(Moment::Start, Moment::OtherStart),
            Comparison::Equal(Moment::End, Moment::OtherEnd),
        ],
        Rel::Contains => &[
            Comparison::AtMost(Moment::Start, Moment::OtherStart),
            Comparison::AtMost(Moment::OtherEnd, Moment::End),
        ],
        Rel::ContainedBy => &[
            Comparison::AtMost(Moment::OtherStart, Moment::Start),
            Comparison::AtMost(Moment::End, Moment::OtherEnd),
        ],
        Rel::Starts => &[Comparison::Equal(Moment::Start, Moment::OtherStart)],
        Rel::Ends => &[Comparison::Equal(Moment::End, Moment::OtherEnd)],
        Rel::Parallels => &[
            Comparison::AtMost(Moment::Start, Moment::OtherStart),
            Comparison::AtMost(Moment::End, Moment::OtherEnd),
        ],
        Rel::ParalleledBy => &[
            Comparison::AtMost(Moment::OtherStart, Moment::Start),
            Comparison::AtMost(Moment::OtherEnd, Moment::End),
        ],
        Rel::StartsDuring => &[
            Comparison::AtMost(Moment::OtherStart, Moment::Start),
            Comparison::AtMost(Moment::Start, Moment::OtherEnd),
        ],
        Rel::ContainsStart => &[
            Comparison::AtMost(Moment::Start, Moment::OtherStart),
            Comparison::AtMost(Moment::OtherStart, Moment::End),
        ],
        Rel::EndsDuring => &[
            Comparison::AtMost(Moment::OtherStart, Moment::End),
            Comparison::AtMost(Moment::End, Moment::OtherEnd),
        ],
        Rel::ContainsEnd => &[
            Comparison::AtMost(Moment::Start, Moment::OtherEnd),
            Comparison::AtMost(Moment::OtherEnd, Moment::End),
        ],
    }
}
