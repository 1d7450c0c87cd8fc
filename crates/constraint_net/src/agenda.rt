//! Which constraints have to be looked at, and which variables have changed.

ghost use Rattle.std.specs.Prelude.{◌≡◌, ◌↔◌, ◌+◌, ◌<◌, ◌≤◌, [], ◌∷◌, ◌++◌, All, length, IsTrue, OnOk};
ghost use Rattle.constraint_net.specs.Agendas.{HasVariables, Grows, Joins, Enrols, WaitsAlone, Wakes, AlertsAfter, Rests};
ghost use Rattle.constraint_net.specs.Agendas.{KeepsLists, KeepsBelow, Forgets};
ghost use Rattle.constraint_net.specs.Arguments.{IsArgument};
ghost use Rattle.constraint_net.specs.Queues.{AreFrom, TakesAll};

use super::constraint::NetArg;
use super::queue::{Queue, clear};
use super::watchers::Watchers;
use domain_core::Change;
use std::alloc::{AllocError, Global};

/// The numbers of the constraints that wait to be narrowed, of those that name a variable, and of the variables that
/// have changed.
#[derive(Drop)]
pub struct Agenda {
    pub waiting: Queue,
    pub watchers: Watchers,
    pub changed: Queue,
}

impl Agenda {
    pub fn new(alloc: Global) -> Agenda
        ensures { result ≡ record {
          waiting = record { items = []; room = 0 };
          watchers = [];
          changed = record { items = []; room = 0 };
        } }
    {
        Agenda {
            waiting: Queue::new(alloc),
            watchers: Watchers::new(alloc),
            changed: Queue::new(alloc),
        }
    }

    /// Makes room for a variable of this number.
    pub fn make_room(&mut self, variable: usize) -> Result<(), AllocError>
        requires { HasVariables variable self.old }
        ensures grows { Grows self.old self.new }
        ensures waiting { self.new.waiting ≡ self.old.waiting }
        ensures ok { OnOk result (HasVariables (variable + 1) self.new) }
    {
        grow_lists(&mut self.watchers, variable)?;
        grow_queue(&mut self.changed, variable)
    }

    /// Lets a constraint of this number wait, which is to be told of each variable among the arguments.
    pub fn enrol(&mut self, number: usize, args: &[NetArg]) -> Result<(), AllocError>
        requires variables { All (IsArgument (length self.old.watchers)) args.now }
        requires number { number ≤ self.old.waiting.room }
        ensures enrols { Enrols number args.now self.old result self.new }
        ensures alone { WaitsAlone number self.old self.new }
    {
        grow_queue(&mut self.waiting, number)?;
        watch(&mut self.watchers, number, args)?;
        self.waiting.add(number);
        Ok(())
    }

    /// The variable has changed: who watches it waits.
    pub fn wake(&mut self, variable: usize)
        requires { variable < length self.old.watchers }
        ensures { Wakes variable self.old self.new }
    {
        queue_all(self.watchers.of(variable), &mut self.waiting);
        self.changed.add(variable);
    }

    /// Whether none of so many constraints waits, and no variable is noted as changed.
    pub fn is_idle(&self, count: usize) -> bool
        ensures { IsTrue result ↔ (AreFrom count self.now.waiting.items × (self.now.changed.items ≡ [])) }
    {
        match self.changed.first() {
            None => self.waiting.is_from(count),
            Some(_variable) => false,
        }
    }

    /// Lets nothing wait, and notes nothing as changed, any more.
    pub fn rest(&mut self)
        ensures { Rests self.old self.new }
    {
        clear(&mut self.waiting);
        clear(&mut self.changed);
    }

    /// Takes the numbers from the count on out of the lists of the variables among the arguments.
    pub fn forget(&mut self, args: &[NetArg], count: usize)
        requires { All (IsArgument (length self.old.watchers)) args.now }
        ensures { Forgets count self.old self.new }
    {
        forget_all(&mut self.watchers, args, count);
    }
}

/// Tells who watches the variable that it has changed, if it has.
pub fn alert(agenda: &mut Agenda, change: Change, variable: usize)
    requires { variable < length agenda.old.watchers }
    ensures { AlertsAfter change variable agenda.old agenda.new }
{
    if let Change::Smaller = change {
        agenda.wake(variable);
    }
}

// Makes a list for the variable, if there is none.
fn grow_lists(watchers: &mut Watchers, variable: usize) -> Result<(), AllocError>
    requires { variable ≤ length watchers.old }
    ensures grows { KeepsLists watchers.old watchers.new }
    ensures ok { OnOk result (variable + 1 ≤ length watchers.new) }
{
    if watchers.len() > variable {
        return Ok(());
    }
    watchers.grow()
}

// Makes room for the number, if there is none.
fn grow_queue(queue: &mut Queue, number: usize) -> Result<(), AllocError>
    requires { number ≤ queue.old.room }
    ensures items { queue.new.items ≡ queue.old.items }
    ensures room { queue.old.room ≤ queue.new.room }
    ensures grown { OnOk result (number + 1 ≤ queue.new.room) }
{
    if queue.room() > number {
        return Ok(());
    }
    queue.grow()
}

// Adds the number to the lists of the variables among the arguments.
fn watch(watchers: &mut Watchers, number: usize, args: &[NetArg]) -> Result<(), AllocError>
    requires { All (IsArgument (length watchers.old)) args.now }
    ensures { Joins number args.now watchers.old result watchers.new }
{
    for arg in args {
        watch_one(watchers, number, *arg)?;
    }
    Ok(())
}

// Adds the number to the list of the argument, if it is a variable.
fn watch_one(watchers: &mut Watchers, number: usize, arg: NetArg) -> Result<(), AllocError>
    requires { IsArgument (length watchers.old) arg }
    ensures { Joins number (arg ∷ []) watchers.old result watchers.new }
{
    match arg {
        NetArg::Var(variable) => watchers.add(variable, number),
        NetArg::Lit(_) => Ok(()),
    }
}

// Lets all these numbers wait.
fn queue_all(numbers: &[u32], waiting: &mut Queue)
    ensures { TakesAll numbers.now waiting.old waiting.new }
{
    for number in numbers {
        waiting.add(*number as usize);
    }
}

// Takes the numbers from the count on off the lists of the variables among the arguments.
fn forget_all(watchers: &mut Watchers, args: &[NetArg], count: usize)
    requires { All (IsArgument (length watchers.old)) args.now }
    ensures { KeepsBelow count watchers.old watchers.new }
{
    for arg in args {
        forget_one(watchers, *arg, count);
    }
}

// Takes the numbers from the count on off the list of the argument, if it is a variable.
fn forget_one(watchers: &mut Watchers, arg: NetArg, count: usize)
    requires { IsArgument (length watchers.old) arg }
    ensures { KeepsBelow count watchers.old watchers.new }
{
    if let NetArg::Var(variable) = arg {
        watchers.trim(variable, count);
    }
}
