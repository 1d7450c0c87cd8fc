//! Laws of propagation, for whoever speaks of it without calling it.

ghost use Rattle.std.specs.Prelude.{◌≡◌, ℕ, ◌≤◌, List, [], ◌∷◌, ◌++◌, Option, Result, Ok, Err};
ghost use Rattle.std.specs.declared.alloc.AllocError.{AllocError};
ghost use Rattle.domain_core.specs.Domain.{Domain};
ghost use Rattle.narrow_core.specs.declared.field.Field.{Field};
ghost use Rattle.domain_core.specs.declared.Change.{Change};
ghost use Rattle.domain_core.specs.declared.kind.Kind.{Kind};
ghost use Rattle.constraint_net.specs.Calls.{AddsVar, Posts, Limits, GoesDown, TakesChanged};
ghost use Rattle.constraint_net.specs.Marks.{IsMark, KeepMarks, Returns};
ghost use Rattle.constraint_net.specs.Networks.{Network, AllConsistent};
ghost use Rattle.constraint_net.specs.Steps.{PropagatesTo};
ghost use Rattle.constraint_net.specs.declared.constraint.Constraint.{Constraint};
ghost use Rattle.constraint_net.specs.declared.constraint.NetArg.{NetArg};
ghost use Rattle.constraint_net.specs.declared.network.Mark.{Mark};
ghost use Rattle.constraint_net.specs.declared.NetFault.TheVariants.{Collapsed, Memory};
ghost use Rattle.constraint_net.specs.declared.NetFault.{NetFault};

/// But for memory, what propagation answers and leaves depends on the network alone.
pub fn propagation_has_one_outcome()
    ensures one { (tables : List Field) (constraints : List Constraint) (old one other : List Domain)
        → PropagatesTo (AllConsistent tables constraints) old (Ok tt) one
        → PropagatesTo (AllConsistent tables constraints) old (Ok tt) other → one ≡ other }
    ensures decided { (tables : List Field) (constraints : List Constraint) (old one other : List Domain)
        → PropagatesTo (AllConsistent tables constraints) old (Ok tt) one
        → PropagatesTo (AllConsistent tables constraints) old (Err Collapsed) other → ⊥ }
{}

/// A call that memory has interrupted is taken up by the next one: the two answer and leave what one would have.
pub fn propagation_is_taken_up()
    ensures { (tables : List Field) (constraints : List Constraint) (old middle new : List Domain)
        (result : Result (Unit {0}) NetFault)
        → PropagatesTo (AllConsistent tables constraints) old (Err Memory) middle
        → PropagatesTo (AllConsistent tables constraints) middle result new
        → PropagatesTo (AllConsistent tables constraints) old result new }
{}

/// A mark stays one of the same domains and constraints, until the network goes back behind it: so it is with each call that
/// changes the network, also where a table comes.
pub fn marks_stay()
    ensures added { (old new : Network) (domain : Domain) (result : Result ℕ AllocError)
        → AddsVar domain old result new → KeepMarks old new }
    ensures posted { (old new : Network) (kind : Kind) (args : List NetArg) (result : Result (Unit {0}) AllocError)
        → Posts old kind args result new → KeepMarks old new }
    ensures limited { (old new : Network) (variable : ℕ) (to : Domain) (result : Result Change AllocError)
        → Limits old variable to result new → KeepMarks old new }
    ensures tabled { (old new : Network) (table : Field)
        → new ≡ record old { tables = old.tables ++ table ∷ [] } → KeepMarks old new }
    ensures taken { (old new : Network) (result : Option ℕ) → TakesChanged old result new → KeepMarks old new }
    ensures propagated { (old new : Network) → GoesDown old new → KeepMarks old new }
    ensures returned { (old new : Network) (mark later : Mark) (domains : List Domain) (constraints : List Constraint)
        → IsMark old mark domains constraints → mark.cells ≤ later.cells → mark.constraints ≤ later.constraints
        → Returns later old new → IsMark new mark domains constraints }
{}
