//! The domains of the variables, and what one constraint takes from them.

ghost use Rattle.std.specs.Prelude.{◌≡◌, ◌<◌, ◌≤◌, [], ◌∷◌, All, length};
ghost use Rattle.domain_core.specs.Domain.{IsDomain, IsSameKind};
ghost use Rattle.cell_store.specs.Cells.{present, AddsCell};
ghost use Rattle.constraint_net.specs.Agendas.{HasVariables, Grows, LimitAlerts, Alerts, AlertsSince, TurnsBack, TellsOfLoss};
ghost use Rattle.constraint_net.specs.Arguments.{IsArgument, domain_of, AgreeAt};
ghost use Rattle.constraint_net.specs.Limits.{LimitsAt, LimitsCell};
ghost use Rattle.constraint_net.specs.Moves.{IsSound, SinksAt};
ghost use Rattle.constraint_net.specs.Reading.{literals_of, SupportedAt};
ghost use Rattle.constraint_net.specs.Steps.{StepsTo, FitBefore, LiesIn};
ghost use Rattle.constraint_net.specs.declared.constraint.NetArg.TheVariants as arg;

use super::agenda::{Agenda, alert};
use super::constraint::NetArg;
use super::reading::{Left, gather, left_at};
use cell_store::{Cells, Mark};
use domain_core::Change;
use domain_core::domain::Dom;
use narrow_core::narrow::Narrow;
use std::alloc::{AllocError, Global};

/// The domains of the variables, in cells of the same numbers.
#[derive(Drop)]
pub struct Domains {
    pub cells: Cells,
    /// How many narrowings there were; it stays at the greatest number.
    pub work: u64,
    pub agenda: Agenda,
    // The values among the arguments of the constraint that is narrowed.
    literals: Vec<Dom>,
}

// The arguments of the constraint that is narrowed, and the values among them, each as a domain.
#[derive(Clone, Copy)]
struct Gathered<'a> {
    args: &'a [NetArg],
    literals: &'a [Dom],
}

impl Domains {
    pub fn new(alloc: Global) -> Domains
        ensures cells { result.cells ≡ record { past = [] ∷ []; stamps = [] } }
        ensures work { result.work ≡ 0 }
        ensures agenda { result.agenda ≡ record {
          waiting = record { items = []; room = 0 };
          watchers = [];
          changed = record { items = []; room = 0 };
        } }
    {
        Domains {
            cells: Cells::new(alloc),
            work: 0,
            agenda: Agenda::new(alloc),
            literals: Vec::new(alloc),
        }
    }

    /// Adds a variable, and answers its number.
    pub fn add(&mut self, domain: Dom) -> Result<usize, AllocError>
        requires ready { HasVariables (length (present self.old.cells)) self.old.agenda }
        ensures added { AddsCell domain self.old.cells result self.new.cells }
        ensures work { self.new.work ≡ self.old.work }
        ensures domain { IsDomain domain }
        ensures grows { Grows self.old.agenda self.new.agenda }
        ensures waiting { self.new.agenda.waiting ≡ self.old.agenda.waiting }
        ensures ready { HasVariables (length (present self.new.cells)) self.new.agenda }
    {
        keeps_itself(&domain);
        add_to(&mut self.cells, &mut self.agenda, domain)
    }

    /// Keeps of one variable what the other domain has too.
    pub fn limit(&mut self, variable: usize, to: &Dom, since: Mark) -> Result<Change, AllocError>
        requires exists { variable < length (present self.old.cells) }
        requires since { since < length self.old.cells.past }
        requires ready { HasVariables (length (present self.old.cells)) self.old.agenda }
        ensures limited { LimitsCell variable to.now since self.old.cells result self.new.cells }
        ensures alerts { Alerts (present self.old.cells) (present self.new.cells) self.old.agenda self.new.agenda }
        ensures told { LimitAlerts variable result self.old.agenda self.new.agenda }
        ensures work { self.new.work ≡ self.old.work }
    {
        limit_cell(&mut self.cells, &mut self.agenda, variable, to, since)
    }

    /// Sees to what there is to do once the cells go back to the mark: nothing if nothing waited there, and else those are
    /// told who watch a variable whose domain isn't the one at the mark.
    pub fn turn_back(&mut self, mark: Mark, idle: bool)
        requires mark { mark < length self.old.cells.past }
        requires ready { HasVariables (length (present self.old.cells)) self.old.agenda }
        ensures turns { TurnsBack idle mark self.old.cells self.old.agenda self.new.agenda }
        ensures cells { self.new.cells ≡ self.old.cells }
        ensures work { self.new.work ≡ self.old.work }
    {
        if idle {
            self.agenda.rest();
            return;
        }
        alert_steps(&self.cells, &mut self.agenda, mark);
    }

    /// Takes from the variables among the arguments what the constraint takes from the arguments. A variable that
    /// stands twice keeps what both its places have left.
    pub fn narrow<C: Narrow>(
        &mut self,
        constraint: &C,
        args: &[NetArg],
        since: Mark,
    ) -> Result<Change, AllocError>
        requires count { length args.now ≡ C.count constraint.now }
        requires sound { IsSound since self.old.cells }
        requires arguments { All (IsArgument (length (present self.old.cells))) args.now }
        requires ready { HasVariables (length (present self.old.cells)) self.old.agenda }
        ensures steps { StepsTo (AgreeAt (C.reach constraint.now) (C.holds constraint.now) args.now)
            (present self.old.cells) result (present self.new.cells) }
        ensures sinks { SinksAt args.now since self.old.cells self.new.cells }
        ensures alerts { Alerts (present self.old.cells) (present self.new.cells) self.old.agenda self.new.agenda }
        ensures told_of_loss { TellsOfLoss (present self.old.cells) (present self.new.cells)
            self.old.agenda self.new.agenda }
        ensures counted { self.old.work ≤ self.new.work }
    {
        gather(args, &mut self.literals)?;
        self.work = self.work.saturating_add(1);
        let gathered = Gathered {
            args,
            literals: self.literals.as_slice(),
        };
        narrow_each(
            constraint,
            gathered,
            &mut self.cells,
            &mut self.agenda,
            since,
        )
    }
}

// Narrows the arguments, one after another.
fn narrow_each<C: Narrow>(
    constraint: &C,
    gathered: Gathered<'_>,
    cells: &mut Cells,
    agenda: &mut Agenda,
    since: Mark,
) -> Result<Change, AllocError>
    requires count { length gathered.args.now ≡ C.count constraint.now }
    requires literals { gathered.literals.now ≡ literals_of gathered.args.now }
    requires sound { IsSound since cells.old }
    requires ready { HasVariables (length (present cells.old)) agenda.old }
    requires arguments { All (IsArgument (length (present cells.old))) gathered.args.now }
    ensures steps { StepsTo (FitBefore
        (SupportedAt (C.reach constraint.now) (C.holds constraint.now) gathered.entry.args.now)
        (length gathered.entry.args.now)) (present cells.old) result (present cells.new) }
    ensures sinks { SinksAt gathered.entry.args.now since cells.old cells.new }
    ensures alerts { Alerts (present cells.old) (present cells.new) agenda.old agenda.new }
    ensures told_of_loss { TellsOfLoss (present cells.old) (present cells.new) agenda.old agenda.new }
{
    let mut change = Change::Same;
    for place in 0..gathered.args.len() {
        change = change.then(narrow_at(constraint, gathered, place, cells, agenda, since)?);
        if let Change::Empty = change {
            return Ok(Change::Empty);
        }
    }
    Ok(change)
}

// Narrows the argument at this place.
fn narrow_at<C: Narrow>(
    constraint: &C,
    gathered: Gathered<'_>,
    place: usize,
    cells: &mut Cells,
    agenda: &mut Agenda,
    since: Mark,
) -> Result<Change, AllocError>
    requires count { length gathered.args.now ≡ C.count constraint.now }
    requires place { place < length gathered.args.now }
    requires literals { gathered.literals.now ≡ literals_of gathered.args.now }
    requires sound { IsSound since cells.old }
    requires ready { HasVariables (length (present cells.old)) agenda.old }
    requires arguments { All (IsArgument (length (present cells.old))) gathered.args.now }
    ensures steps { StepsTo
        (SupportedAt (C.reach constraint.now) (C.holds constraint.now) gathered.entry.args.now place)
        (present cells.old) result (present cells.new) }
    ensures sinks { SinksAt gathered.entry.args.now since cells.old cells.new }
    ensures alerts { Alerts (present cells.old) (present cells.new) agenda.old agenda.new }
    ensures told_of_loss { TellsOfLoss (present cells.old) (present cells.new) agenda.old agenda.new }
{
    match left_at(constraint, gathered.args, place, gathered.literals, cells)? {
        Left::Whole => return Ok(Change::Same),
        Left::Part(left) => return keep_left(gathered.args[place], &left, cells, agenda, since),
        Left::Nothing => return Ok(Change::Empty),
    }
}

// Keeps what is left of the argument, if it is a variable.
fn keep_left(
    arg: NetArg,
    left: &Dom,
    cells: &mut Cells,
    agenda: &mut Agenda,
    since: Mark,
) -> Result<Change, AllocError>
    requires sound { IsSound since cells.old }
    requires ready { HasVariables (length (present cells.old)) agenda.old }
    requires argument { IsArgument (length (present cells.old)) arg }
    requires kind { IsSameKind left.now (domain_of (present cells.old) arg) }
    ensures steps { StepsTo (LiesIn arg left.now) (present cells.old) result (present cells.new) }
    ensures sinks { SinksAt (arg ∷ []) since cells.old cells.new }
    ensures alerts { Alerts (present cells.old) (present cells.new) agenda.old agenda.new }
    ensures told_of_loss { TellsOfLoss (present cells.old) (present cells.new) agenda.old agenda.new }
{
    match arg {
        NetArg::Var(variable) => return keep_common(cells, agenda, variable, left, since),
        NetArg::Lit(_) => return Ok(Change::Same),
    }
}

// Keeps of one variable what the other domain has too.
fn keep_common(
    cells: &mut Cells,
    agenda: &mut Agenda,
    variable: usize,
    other: &Dom,
    since: Mark,
) -> Result<Change, AllocError>
    requires sound { IsSound since cells.old }
    requires ready { HasVariables (length (present cells.old)) agenda.old }
    requires exists { variable < length (present cells.old) }
    requires kind { IsSameKind other.now (domain_of (present cells.old) (arg.Var variable)) }
    ensures steps { StepsTo (LiesIn (arg.Var variable) other.now) (present cells.old) result (present cells.new) }
    ensures sinks { SinksAt (arg.Var variable ∷ []) since cells.old cells.new }
    ensures alerts { Alerts (present cells.old) (present cells.new) agenda.old agenda.new }
    ensures told_of_loss { TellsOfLoss (present cells.old) (present cells.new) agenda.old agenda.new }
{
    limit_cell(cells, agenda, variable, other, since)
}

// Narrows the cell of the variable so, and tells who watches it, if it has changed.
fn limit_cell(
    cells: &mut Cells,
    agenda: &mut Agenda,
    variable: usize,
    to: &Dom,
    since: Mark,
) -> Result<Change, AllocError>
    requires exists { variable < length (present cells.old) }
    requires since { since < length cells.old.past }
    requires ready { HasVariables (length (present cells.old)) agenda.old }
    ensures limited { LimitsCell variable to.now since cells.old result cells.new }
    ensures alerts { Alerts (present cells.old) (present cells.new) agenda.old agenda.new }
    ensures told_of_loss { TellsOfLoss (present cells.old) (present cells.new) agenda.old agenda.new }
    ensures told { LimitAlerts variable result agenda.old agenda.new }
{
    let change = narrow_cell(cells, variable, to, since)?;
    alert(agenda, change, variable);
    Ok(change)
}

// Narrows the cell so, and tells nobody.
fn narrow_cell(
    cells: &mut Cells,
    variable: usize,
    to: &Dom,
    since: Mark,
) -> Result<Change, AllocError>
    requires exists { variable < length (present cells.old) }
    requires since { since < length cells.old.past }
    ensures { LimitsCell variable to.now since cells.old result cells.new }
{
    let change = cells.narrow(variable, to, since)?;
    if let Some(left) = cells.get(variable) {
        keeps_itself(left);
    }
    Ok(change)
}

// Adds a cell, for which there is a list and a place.
fn add_to(cells: &mut Cells, agenda: &mut Agenda, domain: Dom) -> Result<usize, AllocError>
    requires ready { HasVariables (length (present cells.old)) agenda.old }
    ensures added { AddsCell domain cells.old result cells.new }
    ensures grows { Grows agenda.old agenda.new }
    ensures waiting { agenda.new.waiting ≡ agenda.old.waiting }
    ensures ready { HasVariables (length (present cells.new)) agenda.new }
{
    match agenda.make_room(cells.len()) {
        Ok(()) => cells.new_cell(domain),
        Err(none) => Err(none),
    }
}

// Tells who watches a cell that a step since the mark has written.
fn alert_steps(cells: &Cells, agenda: &mut Agenda, mark: Mark)
    requires mark { mark < length cells.now.past }
    requires ready { HasVariables (length (present cells.now)) agenda.old }
    ensures { AlertsSince mark cells.now agenda.old agenda.new }
{
    let present = cells.mark();
    for step in mark.steps()..present.steps() {
        if let Some(variable) = cells.written(step) {
            agenda.wake(variable);
        }
    }
}

// What a domain is always: `Dom` keeps it, and its calls say it.
fn keeps_itself(domain: &Dom)
    ensures { IsDomain domain.now }
{
    let _least = domain.lo();
}
