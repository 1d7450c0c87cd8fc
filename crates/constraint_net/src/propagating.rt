//! Narrowing the constraints that wait, until none does.

ghost use Rattle.std.specs.Prelude.{◌≡◌, ◌-◌, ◌≤◌, [], length, OnOk};
ghost use Rattle.cell_store.specs.Cells.{present};
ghost use Rattle.constraint_net.specs.Agendas.{HasVariables, Alerts, TellsOfLoss};
ghost use Rattle.constraint_net.specs.Calls.{Notes};
ghost use Rattle.constraint_net.specs.Moves.{IsSound, Sinks};
ghost use Rattle.constraint_net.specs.Queues.{AreFrom};
ghost use Rattle.constraint_net.specs.Steps.{StepsTo, PropagatesTo};
ghost use Rattle.constraint_net.specs.Networks.{AllConsistent};
ghost use Rattle.constraint_net.specs.Waiting.{IsConsistentAt, WerePosted, IsKeptAgenda};

use super::NetFault;
use super::domains::Domains;
use super::kinds::narrow_constraint;
use super::posted::Posted;
use cell_store::Mark;
use domain_core::Change;
use narrow_core::field::Field;
use std::alloc::AllocError;

/// Takes values away until all constraints are consistent. The first constraint that waits is narrowed until that takes
/// nothing; whoever watches a variable that gets less on the way waits from then on. Where none of the constraints waits
/// nothing is narrowed.
pub fn propagate(
    constraints: &Posted,
    tables: &[Field],
    domains: &mut Domains,
    since: Mark,
) -> Result<(), NetFault>
    requires posted { WerePosted tables.now (length (present domains.old.cells)) constraints.now }
    requires sound { IsSound since domains.old.cells }
    requires kept { IsKeptAgenda tables.now constraints.now (present domains.old.cells) domains.old.agenda }
    ensures propagated { PropagatesTo (AllConsistent tables.now constraints.now)
        (present domains.old.cells) result (present domains.new.cells) }
    ensures sinks { Sinks since domains.old.cells domains.new.cells }
    ensures counted { domains.old.work ≤ domains.new.work }
    ensures kept { IsKeptAgenda tables.now constraints.now (present domains.new.cells) domains.new.agenda }
    ensures notes { Notes (present domains.old.cells) (present domains.new.cells)
        domains.old.agenda.changed.items domains.new.agenda.changed.items }
    ensures none { OnOk result (domains.new.agenda.waiting.items ≡ []) }
    ensures idle { AreFrom (length constraints.now) domains.old.agenda.waiting.items → domains.new.work ≡ domains.old.work }
{
    while let Some(number) = domains.agenda.waiting.first() {
        match narrow_number(constraints, number, tables, domains, since)? {
            Change::Same => {
                let _propagated = domains.agenda.waiting.take();
            }
            Change::Smaller => {}
            Change::Empty => return Err(NetFault::Collapsed),
        }
    }
    Ok(())
}

// Narrows the constraint of this number, if there still is one.
fn narrow_number(
    constraints: &Posted,
    number: usize,
    tables: &[Field],
    domains: &mut Domains,
    since: Mark,
) -> Result<Change, AllocError>
    requires posted { WerePosted tables.now (length (present domains.old.cells)) constraints.now }
    requires sound { IsSound since domains.old.cells }
    requires ready { HasVariables (length (present domains.old.cells)) domains.old.agenda }
    ensures steps { StepsTo (IsConsistentAt tables.now constraints.now number)
        (present domains.old.cells) result (present domains.new.cells) }
    ensures sinks { Sinks since domains.old.cells domains.new.cells }
    ensures alerts { Alerts (present domains.old.cells) (present domains.new.cells)
        domains.old.agenda domains.new.agenda }
    ensures told_of_loss { TellsOfLoss (present domains.old.cells) (present domains.new.cells)
        domains.old.agenda domains.new.agenda }
    ensures counted { domains.old.work ≤ domains.new.work }
    ensures past { length constraints.now ≤ number
        → (domains.new.agenda ≡ domains.old.agenda) × (domains.new.work ≡ domains.old.work) }
{
    match constraints.get(number) {
        Some(constraint) => narrow_constraint(constraint, tables, domains, since),
        None => Ok(Change::Same),
    }
}
