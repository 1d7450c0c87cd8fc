//! What the text of a rule declares, by number.

ghost use Rattle.std.specs.Prelude.{◌≡◌, ◌+◌, IfOk, OnOk};
ghost use Rattle.nddl_rules.specs.Tally.{local_more, no_tally, slot_more, turn_more};
ghost use Rattle.nddl_rules.specs.Reads.{sight_meaning};
ghost use Rattle.nddl_rules.specs.Sight.{cut_sight, no_sight, sight_until, with_label, with_rule_local, with_turn};

use eu_index::Innermost;
use eu_name::text::Text;
use nddl_terms::Meaning;
use std::alloc::{AllocError, Global};
use std::marker::Model;

/// How many turns, locals and slots of a rule have a number.
#[derive(Clone, Copy, Debug, PartialEq, Eq)]
pub struct Tally {
    pub turns: u32,
    pub locals: u32,
    pub slots: u32,
}

/// The variables of `foreach`, the locals and the labels that are seen.
#[derive(Drop)]
pub struct Sight {
    turns: Innermost<u32>,
    locals: Innermost<u32>,
    labels: Innermost<u32>,
}

/// How many of each sort are seen.
#[derive(Clone, Copy)]
pub struct SightUntil {
    turns: usize,
    locals: usize,
    labels: usize,
}

impl Model for Sight {
    ghost use Rattle.nddl_rules.specs.Sight.{Sight};

    ghost Value = { Sight };

    ghost view = { λ inside. record {
      turns = inside.turns;
      locals = inside.locals;
      labels = inside.labels;
    } };
}

impl Tally {
    /// Nothing has a number yet.
    pub fn new() -> Tally
        ensures { result ≡ no_tally }
    {
        Tally {
            turns: 0,
            locals: 0,
            slots: 0,
        }
    }

    /// One turn more. There is no memory for 2^32 of them.
    pub fn turn_more(self) -> Result<Tally, AllocError>
        ensures { IfOk result (λ tally. tally ≡ turn_more self) }
    {
        Ok(Tally {
            turns: one_more(self.turns)?,
            ..self
        })
    }

    /// One local more.
    pub fn local_more(self) -> Result<Tally, AllocError>
        ensures { IfOk result (λ tally. tally ≡ local_more self) }
    {
        Ok(Tally {
            locals: one_more(self.locals)?,
            ..self
        })
    }

    /// One slot more.
    pub fn slot_more(self) -> Result<Tally, AllocError>
        ensures { IfOk result (λ tally. tally ≡ slot_more self) }
    {
        Ok(Tally {
            slots: one_more(self.slots)?,
            ..self
        })
    }
}

fn one_more(number: u32) -> Result<u32, AllocError>
    ensures { IfOk result (λ next. next ≡ number + 1) }
{
    match number.checked_add(1) {
        Some(next) => Ok(next),
        None => Err(AllocError),
    }
}

impl Sight {
    /// Nothing.
    pub fn new(alloc: Global) -> Sight
        ensures { result ≡ no_sight }
    {
        Sight {
            turns: Innermost::new(alloc),
            locals: Innermost::new(alloc),
            labels: Innermost::new(alloc),
        }
    }

    /// What the name means by what is seen.
    pub fn meaning(&self, name: &Text) -> Option<Meaning>
        ensures { result ≡ sight_meaning self.now name.now }
    {
        match self.turns.find(name) {
            Some(number) => Some(Meaning::Turn(number)),
            None => match self.locals.find(name) {
                Some(number) => Some(Meaning::Local(number)),
                None => self.labels.find(name).map(Meaning::Slot),
            },
        }
    }

    /// A variable of `foreach` more.
    pub fn see_turn(&mut self, name: &Text, number: u32) -> Result<(), AllocError>
        ensures { OnOk result (self.new ≡ with_turn self.old name.now number) }
    {
        self.turns.push(name, number)
    }

    /// A local more.
    pub fn see_local(&mut self, name: &Text, number: u32) -> Result<(), AllocError>
        ensures { OnOk result (self.new ≡ with_rule_local self.old name.now number) }
    {
        self.locals.push(name, number)
    }

    /// A label more.
    pub fn see_label(&mut self, name: &Text, number: u32) -> Result<(), AllocError>
        ensures { OnOk result (self.new ≡ with_label self.old name.now number) }
    {
        self.labels.push(name, number)
    }

    /// How many of each sort are seen.
    pub fn until(&self) -> SightUntil
        ensures { result ≡ sight_until self.now }
    {
        SightUntil {
            turns: self.turns.len(),
            locals: self.locals.len(),
            labels: self.labels.len(),
        }
    }

    /// Without those that came since then. Without memory some of them may be left.
    pub fn forget(&mut self, until: SightUntil) -> Result<(), AllocError>
        ensures { OnOk result (self.new ≡ cut_sight self.old until) }
    {
        self.turns.truncate(until.turns)?;
        self.locals.truncate(until.locals)?;
        self.labels.truncate(until.labels)
    }
}
