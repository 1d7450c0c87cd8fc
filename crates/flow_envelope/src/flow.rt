//! Amounts between places, as in a transport from those that give to those that take.

ghost use Rattle.std.specs.Prelude.{◌≡◌, ◌<◌, pos, ◌+ℤ◌, ◌≤ℤ◌, ◌<ℤ◌, length};
ghost use Rattle.temporal_core.specs.Satisfied.{value_at};
ghost use Rattle.flow_envelope.specs.Pairs.{pair_at};
ghost use Rattle.flow_envelope.specs.Flow.{IsFlow, IsCarried, IsSent, IsShifted};

use super::change::Amount;

/// Pairs of places with the amount along each; how much more each place has to give, and how much room there is at
/// each.
#[derive(Drop)]
pub struct Flow {
    pub pairs: Vec<Amount>,
    pub more: Vec<i64>,
    pub room: Vec<i64>,
}

// Lets so much more go along the pair at the place.
fn carry(flow: &mut Flow, place: usize, by: i64)
    requires flow { IsFlow flow.old.pairs.items flow.old.more.items flow.old.room.items }
    requires place { place < length flow.old.pairs.items }
    requires some { pos 0 ≤ℤ ((pair_at flow.old.pairs.items place).amount +ℤ by) }
    requires more { by ≤ℤ value_at flow.old.more.items (pair_at flow.old.pairs.items place).from }
    requires room { by ≤ℤ value_at flow.old.room.items (pair_at flow.old.pairs.items place).to }
    ensures { IsCarried place by flow.old.pairs.items flow.old.more.items flow.old.room.items
        flow.new.pairs.items flow.new.more.items flow.new.room.items }
{
    let pair = flow.pairs[place];
    let from = pair.from as usize;
    let to = pair.to as usize;
    let amount = pair.amount + by;
    let more = flow.more[from] - by;
    let room = flow.room[to] - by;
    flow.pairs[place] = Amount {
        from: pair.from,
        to: pair.to,
        amount,
    };
    flow.more[from] = more;
    flow.room[to] = room;
}

// The lesser of the two.
fn lesser(one: i64, other: i64) -> i64
    ensures one { result ≤ℤ one }
    ensures other { result ≤ℤ other }
    ensures some { pos 0 <ℤ one → pos 0 <ℤ other → pos 0 <ℤ result }
{
    if one < other { one } else { other }
}

// How much can go along the one pair in place of the other.
fn movable(flow: &Flow, place: usize, other: usize) -> i64
    requires flow { IsFlow flow.now.pairs.items flow.now.more.items flow.now.room.items }
    requires place { place < length flow.now.pairs.items }
    requires other { other < length flow.now.pairs.items }
    requires more { pos 0 <ℤ value_at flow.now.more.items (pair_at flow.now.pairs.items place).from }
    requires amount { pos 0 <ℤ (pair_at flow.now.pairs.items other).amount }
    ensures some { pos 0 <ℤ result }
    ensures more { result ≤ℤ value_at flow.now.more.items (pair_at flow.now.pairs.items place).from }
    ensures amount { result ≤ℤ (pair_at flow.now.pairs.items other).amount }
{
    let from = flow.pairs[place].from as usize;
    lesser(flow.more[from], flow.pairs[other].amount)
}

// How much can go along the pair.
fn fitting(flow: &Flow, place: usize) -> i64
    requires flow { IsFlow flow.now.pairs.items flow.now.more.items flow.now.room.items }
    requires place { place < length flow.now.pairs.items }
    requires more { pos 0 <ℤ value_at flow.now.more.items (pair_at flow.now.pairs.items place).from }
    requires room { pos 0 <ℤ value_at flow.now.room.items (pair_at flow.now.pairs.items place).to }
    ensures some { pos 0 <ℤ result }
    ensures more { result ≤ℤ value_at flow.now.more.items (pair_at flow.now.pairs.items place).from }
    ensures room { result ≤ℤ value_at flow.now.room.items (pair_at flow.now.pairs.items place).to }
{
    let pair = flow.pairs[place];
    lesser(flow.more[pair.from as usize], flow.room[pair.to as usize])
}

/// Lets as much as can be go along the one pair in place of the other, which leads to the same taker.
pub fn shift(flow: &mut Flow, place: usize, other: usize)
    requires flow { IsFlow flow.old.pairs.items flow.old.more.items flow.old.room.items }
    requires place { place < length flow.old.pairs.items }
    requires other { other < length flow.old.pairs.items }
    requires same { (pair_at flow.old.pairs.items other).to ≡ (pair_at flow.old.pairs.items place).to }
    requires more { pos 0 <ℤ value_at flow.old.more.items (pair_at flow.old.pairs.items place).from }
    requires amount { pos 0 <ℤ (pair_at flow.old.pairs.items other).amount }
    ensures { IsShifted (pair_at flow.old.pairs.items place).to (pair_at flow.old.pairs.items other).from
        flow.old.pairs.items flow.old.more.items flow.old.room.items
        flow.new.pairs.items flow.new.more.items flow.new.room.items }
{
    let by = movable(flow, place, other);
    carry(flow, other, -by);
    carry(flow, place, by);
}

/// Lets as much as can be go along the pair.
pub fn settle(flow: &mut Flow, place: usize)
    requires flow { IsFlow flow.old.pairs.items flow.old.more.items flow.old.room.items }
    requires place { place < length flow.old.pairs.items }
    requires more { pos 0 <ℤ value_at flow.old.more.items (pair_at flow.old.pairs.items place).from }
    requires room { pos 0 <ℤ value_at flow.old.room.items (pair_at flow.old.pairs.items place).to }
    ensures { IsSent flow.old.pairs.items flow.old.more.items flow.old.room.items
        flow.new.pairs.items flow.new.more.items flow.new.room.items }
{
    let by = fitting(flow, place);
    carry(flow, place, by);
}
