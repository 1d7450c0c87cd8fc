//! The log of decisions.

ghost use Rattle.std.specs.Prelude.{◌≡◌, ◌+◌, [], ◌∷◌, false, length, Contains, IfOk, MatchResult, OnOk, OnErr};
ghost use Rattle.decision_log.specs.declared.LogFault.TheVariants.{Memory};
ghost use Rattle.decision_log.specs.Kept.{put_back, HavePlaces};
ghost use Rattle.model_core.specs.History.{standing, accepted};
ghost use Rattle.decision_log.specs.Undoing.{Undoes, Pops, CopiesFormer};
ghost use Rattle.decision_log.specs.Taking.{kept_of, TellsStep};

use super::LogFault;
use super::steps::{Step, TakenOut, count_left_out, put_all_back, put_copies_back, take_unflagged};
use eu_name::sequence::Sequence;
use model_core::decision::Decision;
use std::alloc::{AllocError, Global};
use std::marker::Model;

/// The decisions in the order in which they were taken. Contracts see the stack of the lists that stood.
#[derive(Drop)]
pub struct Log {
    decisions: Vec<Decision>,
    // The last step is the last item.
    steps: Vec<Step>,
}

/// What a step was.
#[derive(Clone, Copy)]
pub enum LogStep<'a> {
    /// A decision was put at the end.
    Push,
    /// Decisions were taken out, of which this one stood first.
    Take(&'a Decision),
}

impl Model for Log {
    ghost use Rattle.std.specs.Prelude.{reverse, vec_capacity};
    ghost use Rattle.model_core.specs.History.{History};
    ghost use Rattle.decision_log.specs.Kept.{lists_of, AreLogSteps};

    ghost Value = { History };

    ghost view = { λ log. lists_of log.decisions.items (reverse log.steps.items) };

    ghost invariant = { λ log. AreLogSteps (vec_capacity log.decisions) log.decisions.items (reverse log.steps.items) };
}

impl Log {
    /// A log in which nothing is decided, which takes no memory.
    pub fn new(alloc: Global) -> Log
        ensures { result ≡ [] ∷ [] }
    {
        Log {
            decisions: Vec::new(alloc),
            steps: Vec::new(alloc),
        }
    }

    /// Puts a decision at the end of the standing list.
    pub fn push(&mut self, decision: Decision) -> Result<(), AllocError>
        ensures ok { OnOk result (self.new ≡ accepted self.old decision) }
        ensures err { OnErr result (self.new ≡ self.old) }
    {
        self.steps.reserve(1)?;
        self.decisions.push(decision)?;
        self.steps.push_reserved(Step::Push);
        Ok(())
    }

    /// Takes the decisions out that have no flag; the others stand in their order. Memory is taken for what is taken out.
    pub fn take_out(&mut self, keep: &[bool]) -> Result<(), AllocError>
        requires flags { length keep.now ≡ length (standing self.old) }
        requires some { Contains keep.now false }
        ensures ok { OnOk result (self.new ≡ kept_of keep.now (standing self.old) ∷ self.old) }
        ensures err { OnErr result (self.new ≡ self.old) }
    {
        self.steps.reserve(1)?;
        let room = Vec::with_capacity(*self.decisions.allocator(), count_left_out(keep))?;
        let taken = take_unflagged(&mut self.decisions, keep, room);
        self.steps.push_reserved(Step::Take(taken));
        Ok(())
    }

    /// Brings back the list before the last step. It takes no memory: the room for that list was kept.
    pub fn undo(&mut self) -> Result<(), LogFault>
        ensures { Undoes self.old result self.new }
    {
        match self.steps.pop() {
            None => return Err(LogFault::Nothing),
            Some(Step::Push) => {
                let _last = self.decisions.pop();
                return Ok(());
            }
            Some(Step::Take(taken)) => {
                put_all_back(&mut self.decisions, taken);
                return Ok(());
            }
        }
    }

    /// Takes the last decision back out. None where the last step was no `push`.
    pub fn pop(&mut self) -> Option<Decision>
        ensures { Pops self.old result self.new }
    {
        match self.steps.pop() {
            None => return None,
            Some(Step::Push) => return self.decisions.pop(),
            Some(Step::Take(taken)) => {
                self.steps.push_reserved(Step::Take(taken));
                return None;
            }
        }
    }

    /// A copy of the list that `undo` would bring back.
    pub fn former(&self) -> Result<Sequence<Decision>, LogFault>
        ensures { CopiesFormer self.now result }
    {
        match self.steps.last() {
            None => return Err(LogFault::Nothing),
            Some(Step::Push) => {
                let front = &self.decisions[..self.decisions.len() - 1];
                return sequence_of(copies(*self.decisions.allocator(), front));
            }
            Some(Step::Take(taken)) => {
                return sequence_of(copies_before(&self.decisions, taken));
            }
        }
    }

    /// The decisions that stand.
    pub fn standing(&self) -> &[Decision]
        ensures { result.now ≡ standing self.now }
    {
        self.decisions.as_slice()
    }

    /// The step of this number, counted from 0 at the oldest. None from the number of steps on.
    pub fn step_at(&self, number: u64) -> Option<LogStep<'_>>
        ensures { TellsStep self.now number result }
    {
        if number >= self.steps.len() as u64 {
            return None;
        }
        match &self.steps[number as usize] {
            Step::Push => return Some(LogStep::Push),
            Step::Take(taken) => return Some(LogStep::Take(&taken[taken.len() - 1].decision)),
        }
    }

    /// The allocator that the log was made with.
    pub fn allocator(&self) -> Global {
        *self.decisions.allocator()
    }

    /// How many steps `undo` can take back.
    pub fn len(&self) -> u64
        ensures { result + 1 ≡ length self.now }
    {
        self.steps.len() as u64
    }
}

// Equal decisions in memory of their own.
fn copies(alloc: Global, decisions: &[Decision]) -> Result<Vec<Decision>, AllocError>
    ensures { IfOk result (λ copied. copied.items ≡ decisions.now) }
{
    let mut copied = Vec::with_capacity(alloc, decisions.len())?;
    for decision in decisions {
        copied.push(decision.copy()?)?;
    }
    Ok(copied)
}

// Copies of the decisions, with copies of those that were taken out at their places.
fn copies_before(decisions: &Vec<Decision>, taken: &[TakenOut]) -> Result<Vec<Decision>, AllocError>
    requires { HavePlaces taken.now decisions.now.items }
    ensures { IfOk result (λ list. list.items ≡ put_back taken.now decisions.now.items) }
{
    let mut list = copies(*decisions.allocator(), decisions.as_slice())?;
    put_copies_back(&mut list, taken)?;
    Ok(list)
}

// The list, or that there was no memory for it.
fn sequence_of(list: Result<Vec<Decision>, AllocError>) -> Result<Sequence<Decision>, LogFault>
    ensures { MatchResult list (λ decisions. result ≡ Ok decisions.items) (λ _. result ≡ Err Memory) }
{
    match list {
        Ok(decisions) => Ok(Sequence::from_vec(decisions)),
        Err(_none) => Err(LogFault::Memory),
    }
}
