//! Marks of slots and locals of a rule.

ghost use Rattle.std.specs.Prelude.{◌≡◌, true, slice_set, MatchBool};
ghost use Rattle.model_core.specs.Blocks.{OfSlot, OfLocal};
ghost use Rattle.plan_inventory.specs.Marking.{IsMarked, AreNone, AddsMarks};

/// How many slots, and how many locals, a rule of a lawful model has at most.
const MOST: usize = 128;

/// Which slots and which locals of a rule are marked.
#[derive(Drop)]
pub struct Marks {
    slots: [bool; MOST],
    locals: [bool; MOST],
}

// Sets the mark of this number, if there is one.
fn set_mark(marks: &mut [bool], number: u32)
    ensures { marks.new ≡ slice_set marks.old number true }
{
    let place = number as usize;
    if place < marks.len() {
        marks[place] = true;
    }
}

impl Marks {
    pub fn new() -> Marks
        ensures { AreNone result }
    {
        Marks {
            slots: [false; MOST],
            locals: [false; MOST],
        }
    }

    /// Marks the slot, if there is a mark for its number.
    pub fn add_slot(&mut self, number: u32)
        ensures { AddsMarks (λ what. what ≡ OfSlot number) self.old self.new }
    {
        set_mark(&mut self.slots, number);
    }

    /// Marks the local, if there is a mark for its number.
    pub fn add_local(&mut self, number: u32)
        ensures { AddsMarks (λ what. what ≡ OfLocal number) self.old self.new }
    {
        set_mark(&mut self.locals, number);
    }

    /// Whether the slot is marked.
    pub fn has_slot(&self, number: u16) -> bool
        ensures { MatchBool result
            (IsMarked self.now (OfSlot number))
            (IsMarked self.now (OfSlot number) → ⊥) }
    {
        let place = usize::from(number);
        if place < MOST {
            self.slots[place]
        } else {
            false
        }
    }

    /// Whether the local is marked.
    pub fn has_local(&self, number: u16) -> bool
        ensures { MatchBool result
            (IsMarked self.now (OfLocal number))
            (IsMarked self.now (OfLocal number) → ⊥) }
    {
        let place = usize::from(number);
        if place < MOST {
            self.locals[place]
        } else {
            false
        }
    }
}
