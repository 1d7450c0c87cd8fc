//! The temporal relations between a token, a, and one that its rule asks for, b.

ghost use Rattle.std.specs.Prelude.{codes};
ghost use Rattle.model_core.specs.declared.item.Rel.TheVariants as rel;
ghost use Rattle.law_examples.specs.Relations.{FitsIn};

/// Where a takes place from 3 to 6, whether b fits from 7 to 9, 6 to 9, 4 to 8, 3 to 8, 2 to 8, 2 to 6, 3 to 6, 1
/// to 3, 0 to 2, 1 to 5, 3 to 5, 4 to 5 and 4 to 6. These are all ways in which two spans of time can lie beside
/// each other, so no other inequalities and equalities of starts and ends have the same row.
pub fn rows_of_the_relations()
    ensures any { FitsIn rel.Any (codes "yyyyyyyyyyyyy") }
    ensures before { FitsIn rel.Before (codes "yynnnnnnnnnnn") }
    ensures after { FitsIn rel.After (codes "nnnnnnnyynnnn") }
    ensures meets { FitsIn rel.Meets (codes "nynnnnnnnnnnn") }
    ensures met_by { FitsIn rel.MetBy (codes "nnnnnnnynnnnn") }
    ensures equals { FitsIn rel.Equals (codes "nnnnnnynnnnnn") }
    ensures contains { FitsIn rel.Contains (codes "nnnnnnynnnyyy") }
    ensures contained_by { FitsIn rel.ContainedBy (codes "nnnyyyynnnnnn") }
    ensures starts { FitsIn rel.Starts (codes "nnnynnynnnynn") }
    ensures ends { FitsIn rel.Ends (codes "nnnnnyynnnnny") }
    ensures parallels { FitsIn rel.Parallels (codes "yyyynnynnnnny") }
    ensures paralleled_by { FitsIn rel.ParalleledBy (codes "nnnnnyyyyyynn") }
    ensures starts_during { FitsIn rel.StartsDuring (codes "nnnyyyyynyynn") }
    ensures contains_start { FitsIn rel.ContainsStart (codes "nyyynnynnnyyy") }
    ensures ends_during { FitsIn rel.EndsDuring (codes "nyyyyyynnnnny") }
    ensures contains_end { FitsIn rel.ContainsEnd (codes "nnnnnyyynyyyy") }
{}
