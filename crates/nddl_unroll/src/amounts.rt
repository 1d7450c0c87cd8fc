//! How much there is in rules.

ghost use Rattle.std.specs.Prelude.{◌≡◌};
ghost use Rattle.nddl_unroll.specs.Amounts.{amounts_and, amounts_times, no_amounts, one_guard, one_local, one_slot, some_items, some_reads, some_turns};

/// How much there is in rules. Each number stays at the greatest one.
#[derive(Clone, Copy, Debug, PartialEq, Eq)]
pub struct Amounts {
    pub guards: u64,
    pub slots: u64,
    pub locals: u64,
    pub items: u64,
    /// How often the blocks of `foreach` are gone through.
    pub turns: u64,
}

impl Amounts {
    pub fn none() -> Amounts
        ensures { result ≡ no_amounts }
    {
        Amounts {
            guards: 0,
            slots: 0,
            locals: 0,
            items: 0,
            turns: 0,
        }
    }

    /// Both together.
    pub fn and(self, other: Amounts) -> Amounts
        ensures { result ≡ amounts_and self other }
    {
        Amounts {
            guards: self.guards.saturating_add(other.guards),
            slots: self.slots.saturating_add(other.slots),
            locals: self.locals.saturating_add(other.locals),
            items: self.items.saturating_add(other.items),
            turns: self.turns.saturating_add(other.turns),
        }
    }

    /// So many times the same.
    pub fn times(self, count: u64) -> Amounts
        ensures { result ≡ amounts_times count self }
    {
        Amounts {
            guards: count.saturating_mul(self.guards),
            slots: count.saturating_mul(self.slots),
            locals: count.saturating_mul(self.locals),
            items: count.saturating_mul(self.items),
            turns: count.saturating_mul(self.turns),
        }
    }

    pub fn guard() -> Amounts
        ensures { result ≡ one_guard }
    {
        Amounts {
            guards: 1,
            slots: 0,
            locals: 0,
            items: 0,
            turns: 0,
        }
    }

    pub fn slot() -> Amounts
        ensures { result ≡ one_slot }
    {
        Amounts {
            guards: 0,
            slots: 1,
            locals: 0,
            items: 0,
            turns: 0,
        }
    }

    pub fn local() -> Amounts
        ensures { result ≡ one_local }
    {
        Amounts {
            guards: 0,
            slots: 0,
            locals: 1,
            items: 0,
            turns: 0,
        }
    }

    /// So many items.
    pub fn items(count: u64) -> Amounts
        ensures { result ≡ some_items count }
    {
        Amounts {
            guards: 0,
            slots: 0,
            locals: 0,
            items: count,
            turns: 0,
        }
    }

    /// So many turns.
    pub fn turns(count: u64) -> Amounts
        ensures { result ≡ some_turns count }
    {
        Amounts {
            guards: 0,
            slots: 0,
            locals: 0,
            items: 0,
            turns: count,
        }
    }

    /// So many fields that are read.
    pub fn reads(count: u64) -> Amounts
        ensures { result ≡ some_reads count }
    {
        Amounts {
            guards: 0,
            slots: 0,
            locals: count,
            items: count,
            turns: 0,
        }
    }
}
