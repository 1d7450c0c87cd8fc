//! Amounts are carried until no place with more to give can be led to room: a greatest flow by augmenting paths, as
//! Ford and Fulkerson have it.

ghost use Rattle.std.specs.Prelude.{◌≡◌, ◌<◌, pos, ◌≤ℤ◌, ◌<ℤ◌, length, map, IfOk, MatchOption};
ghost use Rattle.temporal_core.specs.Satisfied.{value_at, value_sum};
ghost use Rattle.flow_envelope.specs.Flow.{IsFlow, IsMoved, IsSent};
ghost use Rattle.flow_envelope.specs.Labels.{label_at, AreClosed, IsStart};
ghost use Rattle.flow_envelope.specs.Filling.{IsStep, to_give, to_take};

use super::change::{Amount, PointChange};
use super::flow::{Flow, settle, shift};
use super::labels::{Labels, search};
use std::alloc::{AllocError, Global};

// Carries what the place has along the pair that leads on from it: to room, or else in place of what another one gives
// there, which has more then.
fn step(flow: &mut Flow, labels: &Labels, place: usize) -> Option<usize>
    requires flow { IsFlow flow.old.pairs.items flow.old.more.items flow.old.room.items }
    requires adders { length labels.now.adders.items ≡ length flow.old.more.items }
    requires takers { length labels.now.takers.items ≡ length flow.old.more.items }
    requires start { IsStart flow.old.pairs.items flow.old.more.items flow.old.room.items
        labels.now.adders.items labels.now.takers.items place }
    ensures { IsStep labels.now.adders.items labels.now.takers.items place
        flow.old.pairs.items flow.old.more.items flow.old.room.items
        flow.new.pairs.items flow.new.more.items flow.new.room.items result }
{
    let pair = labels.adders[place].via;
    let taker = flow.pairs[pair].to as usize;
    if flow.room[taker] > 0 {
        settle(flow, pair);
        return None;
    }
    let other = labels.takers[taker].via;
    let next = flow.pairs[other].from as usize;
    shift(flow, pair, other);
    Some(next)
}

// Carries on from the start until there is room.
fn send(flow: &mut Flow, labels: &Labels, start: usize)
    requires flow { IsFlow flow.old.pairs.items flow.old.more.items flow.old.room.items }
    requires adders { length labels.now.adders.items ≡ length flow.old.more.items }
    requires takers { length labels.now.takers.items ≡ length flow.old.more.items }
    requires start { IsStart flow.old.pairs.items flow.old.more.items flow.old.room.items
        labels.now.adders.items labels.now.takers.items start }
    ensures { IsSent flow.old.pairs.items flow.old.more.items flow.old.room.items
        flow.new.pairs.items flow.new.more.items flow.new.room.items }
{
    let mut place = start;
    while let Some(next) = step(flow, labels, place) {
        place = next;
    }
}

/// Carries as much as can be, and tells the last labels.
pub fn fill(alloc: Global, flow: &mut Flow) -> Result<Labels, AllocError>
    requires { IsFlow flow.old.pairs.items flow.old.more.items flow.old.room.items }
    ensures flow { IsFlow flow.new.pairs.items flow.new.more.items flow.new.room.items }
    ensures moved { IsMoved flow.old.pairs.items flow.old.more.items flow.old.room.items
        flow.new.pairs.items flow.new.more.items flow.new.room.items }
    ensures count { IfOk result (λ labels. length labels.adders.items ≡ length flow.new.more.items) }
    ensures closed { IfOk result (λ labels.
        AreClosed flow.new.pairs.items flow.new.more.items flow.new.room.items labels.adders.items labels.takers.items) }
{
    let mut labels = Labels::new(alloc, flow.more.len())?;
    while let Some(start) = search(flow, &mut labels) {
        send(flow, &labels, start);
    }
    Ok(labels)
}

// What the change has to give.
#[tactic(auto, unfolding(crate::specs::Filling::to_give))]
fn given(change: PointChange) -> i64
    ensures { result ≡ to_give change }
{
    if change.add > 0 {
        return i64::from(change.add);
    }
    0
}

// What the change has room for.
#[tactic(auto, unfolding(crate::specs::Filling::to_take))]
fn taken(change: PointChange) -> i64
    ensures { result ≡ to_take change }
{
    if change.add < 0 {
        return -i64::from(change.add);
    }
    0
}

fn all_given(alloc: Global, changes: &[PointChange]) -> Result<Vec<i64>, AllocError>
    ensures { IfOk result (λ more. more.items ≡ map to_give changes.now) }
{
    let mut more = Vec::with_capacity(alloc, changes.len())?;
    for change in changes {
        more.push(given(*change))?;
    }
    Ok(more)
}

fn all_taken(alloc: Global, changes: &[PointChange]) -> Result<Vec<i64>, AllocError>
    ensures { IfOk result (λ room. room.items ≡ map to_take changes.now) }
{
    let mut room = Vec::with_capacity(alloc, changes.len())?;
    for change in changes {
        room.push(taken(*change))?;
    }
    Ok(room)
}

/// The pairs, with all that the changes have to give and all the room that they have.
pub fn flow_of(
    alloc: Global,
    changes: &[PointChange],
    pairs: Vec<Amount>,
) -> Result<Flow, AllocError>
    ensures pairs { IfOk result (λ flow. flow.pairs.items ≡ pairs.items) }
    ensures more { IfOk result (λ flow. flow.more.items ≡ map to_give changes.now) }
    ensures room { IfOk result (λ flow. flow.room.items ≡ map to_take changes.now) }
{
    let more = all_given(alloc, changes)?;
    let room = all_taken(alloc, changes)?;
    Ok(Flow { pairs, more, room })
}
