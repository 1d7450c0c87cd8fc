//! Which law each kind of constraint has.

ghost use Rattle.std.specs.Prelude.{◌≤◌, [], ◌∷◌, All, length};
ghost use Rattle.domain_core.specs.Consistency.{Ends};
ghost use Rattle.domain_core.specs.Constraints.{HoldsOf};
ghost use Rattle.domain_core.specs.declared.kind.Kind.TheVariants as kind;
ghost use Rattle.cell_store.specs.Cells.{present};
ghost use Rattle.constraint_net.specs.Agendas.{HasVariables, Alerts, TellsOfLoss};
ghost use Rattle.constraint_net.specs.Arguments.{IsArgument, AgreeAt};
ghost use Rattle.constraint_net.specs.Moves.{IsSound, SinksAt};
ghost use Rattle.constraint_net.specs.Networks.{IsConsistent, HasFactor, CanPost};
ghost use Rattle.constraint_net.specs.Steps.{StepsTo};

use super::constraint::{Constraint, NetArg};
use super::domains::Domains;
use cell_store::Mark;
use domain_core::Change;
use domain_core::kind::Kind;
use narrow_core::equal::{Eq, Neq};
use narrow_core::field::Field;
use narrow_core::order::{Leq, Lt};
use narrow_core::product::MulEq;
use narrow_core::sum::AddEq;
use narrow_core::tested::{TestEq, TestLeq};
use std::alloc::AllocError;

/// Takes from the variables what the constraint doesn't allow.
pub fn narrow_constraint(
    constraint: &Constraint,
    tables: &[Field],
    domains: &mut Domains,
    since: Mark,
) -> Result<Change, AllocError>
    requires posted { CanPost tables.now (length (present domains.old.cells)) constraint.now.kind constraint.now.args }
    requires sound { IsSound since domains.old.cells }
    requires ready { HasVariables (length (present domains.old.cells)) domains.old.agenda }
    ensures steps { StepsTo (IsConsistent tables.now constraint.now)
        (present domains.old.cells) result (present domains.new.cells) }
    ensures sinks { SinksAt constraint.now.args since domains.old.cells domains.new.cells }
    ensures alerts { Alerts (present domains.old.cells) (present domains.new.cells)
        domains.old.agenda domains.new.agenda }
    ensures told_of_loss { TellsOfLoss (present domains.old.cells) (present domains.new.cells)
        domains.old.agenda domains.new.agenda }
    ensures counted { domains.old.work ≤ domains.new.work }
{
    let args = constraint.args.as_slice();
    match constraint.kind {
        Kind::Eq => return domains.narrow(&Eq, args, since),
        Kind::Neq => return domains.narrow(&Neq, args, since),
        Kind::Lt => return domains.narrow(&Lt, args, since),
        Kind::Leq => return domains.narrow(&Leq, args, since),
        Kind::AddEq => return domains.narrow(&AddEq, args, since),
        Kind::MulEq => return narrow_product(args, domains, since),
        Kind::TestEq => return domains.narrow(&TestEq, args, since),
        Kind::TestLeq => return domains.narrow(&TestLeq, args, since),
        Kind::Field(number) => return domains.narrow(&tables[number as usize], args, since),
        Kind::AllDiff => unreachable!(),
    }
}

// Takes from the variables what isn't a product by the factor, which is written as the second argument.
fn narrow_product(args: &[NetArg], domains: &mut Domains, since: Mark) -> Result<Change, AllocError>
    requires arguments { All (IsArgument (length (present domains.old.cells))) args.now }
    requires factor { HasFactor args.now }
    requires sound { IsSound since domains.old.cells }
    requires ready { HasVariables (length (present domains.old.cells)) domains.old.agenda }
    ensures steps { StepsTo (AgreeAt Ends (HoldsOf kind.MulEq) args.now)
        (present domains.old.cells) result (present domains.new.cells) }
    ensures sinks { SinksAt args.now since domains.old.cells domains.new.cells }
    ensures alerts { Alerts (present domains.old.cells) (present domains.new.cells)
        domains.old.agenda domains.new.agenda }
    ensures told_of_loss { TellsOfLoss (present domains.old.cells) (present domains.new.cells)
        domains.old.agenda domains.new.agenda }
    ensures counted { domains.old.work ≤ domains.new.work }
{
    match args {
        [x, factor, z] => return narrow_by_factor(*x, *factor, *z, domains, since),
        _ => unreachable!(),
    }
}

// Takes the three arguments one by one, and narrows by the factor, which is a number.
fn narrow_by_factor(
    x: NetArg,
    factor: NetArg,
    z: NetArg,
    domains: &mut Domains,
    since: Mark,
) -> Result<Change, AllocError>
    requires arguments { All (IsArgument (length (present domains.old.cells))) (x ∷ factor ∷ z ∷ []) }
    requires factor { HasFactor (x ∷ factor ∷ z ∷ []) }
    requires sound { IsSound since domains.old.cells }
    requires ready { HasVariables (length (present domains.old.cells)) domains.old.agenda }
    ensures steps { StepsTo (AgreeAt Ends (HoldsOf kind.MulEq) (x ∷ factor ∷ z ∷ []))
        (present domains.old.cells) result (present domains.new.cells) }
    ensures sinks { SinksAt (x ∷ factor ∷ z ∷ []) since domains.old.cells domains.new.cells }
    ensures alerts { Alerts (present domains.old.cells) (present domains.new.cells)
        domains.old.agenda domains.new.agenda }
    ensures told_of_loss { TellsOfLoss (present domains.old.cells) (present domains.new.cells)
        domains.old.agenda domains.new.agenda }
    ensures counted { domains.old.work ≤ domains.new.work }
{
    match factor {
        NetArg::Lit(number) => return domains.narrow(&MulEq::by(number), &[x, z], since),
        NetArg::Var(_) => unreachable!(),
    }
}
