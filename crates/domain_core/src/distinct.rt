//! Distinct values of a list, in order, in room of their own: they are counted before any memory is taken.

ghost use Rattle.std.specs.Prelude.{◌≡◌, ◌≤◌, [], ℤ, List, length, take, MatchBool, MatchOption};
ghost use Rattle.domain_core.specs.Domain.{AreAscending};
ghost use Rattle.domain_core.specs.Lists.{Inserts, IsFull, AreDistinct, HasTooMany};

use super::domain::MOST_MEMBERS;
use std::marker::Model;

/// Up to as many distinct values as a set may have, in order.
#[derive(Drop)]
pub struct Distinct {
    room: [i32; MOST_MEMBERS],
    count: usize,
}

impl Model for Distinct {
    ghost use Rattle.std.specs.Prelude.{◌≤◌, List, ℤ, take};
    ghost use Rattle.domain_core.specs.Domain.{AreAscending};

    ghost Value = { List ℤ };

    ghost view = { λ inside. take inside.count inside.room };

    ghost invariant = { λ inside. (inside.count ≤ 4096) × AreAscending (take inside.count inside.room) };
}

impl Distinct {
    fn new() -> Distinct
        ensures { result ≡ [] }
    {
        Distinct {
            room: [0; MOST_MEMBERS],
            count: 0,
        }
    }

    /// The values of the list. None where it has more distinct ones than there is room for.
    pub fn of(values: &[i32]) -> Option<Distinct>
        ensures { MatchOption result (HasTooMany values.now) (λ distinct. AreDistinct values.now distinct) }
    {
        let mut distinct = Distinct::new();
        for value in values {
            if !distinct.insert(*value) {
                return None;
            }
        }
        Some(distinct)
    }

    // Puts the value in its place, where it isn't there yet. False where there is no room for it.
    fn insert(&mut self, value: i32) -> bool
        ensures inserts { MatchBool result
            (Inserts self.old value self.new) (IsFull self.old value × (self.new ≡ self.old)) }
        ensures few { length self.new ≤ 4096 }
    {
        let Err(place) = self.room[..self.count].binary_search(&value) else {
            return true;
        };
        if self.count == MOST_MEMBERS {
            return false;
        }
        self.room.copy_within(place..self.count, place + 1);
        self.room[place] = value;
        self.count += 1;
        true
    }

    pub fn as_slice(&self) -> &[i32]
        ensures { result.now ≡ self.now }
    {
        &self.room[..self.count]
    }
}
