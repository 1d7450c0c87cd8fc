//! A law of the definitions.

ghost use Rattle.std.specs.Prelude.{ℤ, List};
ghost use Rattle.temporal_core.specs.declared.edges.Edge.{Edge as AnEdge};
ghost use Rattle.flow_envelope.specs.declared.change.PointChange.{PointChange as AChange};
ghost use Rattle.flow_envelope.specs.declared.change.Amount.{Amount as AnAmount};
ghost use Rattle.flow_envelope.specs.Cut.{IsCut, HasNoMore};

/// A law: a cut shows that no schedule has more than its sum.
pub fn cut_shows_no_more()
    ensures { (edges : List AnEdge) (changes : List AChange) (at : ℤ) (cut : List AnAmount) (sum : ℤ)
        → IsCut edges changes at cut sum → HasNoMore edges changes at sum }
{}
