//! Labels that lead from places with more to give to places with room: each label has a higher rank than the one that
//! it leads to.

ghost use Rattle.std.specs.Prelude.{◌≡◌, ◌↔◌, ◌+◌, ◌<◌, ◌≤◌, ℤ, pos, ◌≤ℤ◌, ◌<ℤ◌, List, length, slice_set, IfOk, IsTrue};
ghost use Rattle.std.specs.Prelude.{MatchOption, ℕ};
ghost use Rattle.temporal_core.specs.Satisfied.{value_at};
ghost use Rattle.flow_envelope.specs.Pairs.{pair_at};
ghost use Rattle.flow_envelope.specs.Flow.{IsFlow};
ghost use Rattle.flow_envelope.specs.Labels.{label_at, unlabelled, AreLabels, AreGrown, IsVisited, IsSettled, AreClosed};
ghost use Rattle.flow_envelope.specs.Labels.{IsStart, IsSeed};

use super::change::Amount;
use super::flow::Flow;
use std::alloc::{AllocError, Global};

/// A place without a label has rank 0.
#[derive(Clone, Copy)]
pub struct Label {
    pub rank: usize,
    pub via: usize,
}

/// The labels of the places that give and of those that take, and the next rank.
#[derive(Drop)]
pub struct Labels {
    pub adders: Vec<Label>,
    pub takers: Vec<Label>,
    pub next: usize,
}

impl Labels {
    /// So many places without a label.
    pub fn new(alloc: Global, places: usize) -> Result<Labels, AllocError>
        ensures adders { IfOk result (λ labels. length labels.adders.items ≡ places) }
        ensures takers { IfOk result (λ labels. length labels.takers.items ≡ places) }
    {
        let none = Label { rank: 0, via: 0 };
        Ok(Labels {
            adders: vec![in alloc; none; places]?,
            takers: vec![in alloc; none; places]?,
            next: 1,
        })
    }
}

// The first label of a place that takes.
fn seed(room: i64) -> Label
    ensures { IsSeed room result }
{
    if room > 0 {
        return Label { rank: 1, via: 0 };
    }
    Label { rank: 0, via: 0 }
}

// Begins anew: the places with room are labelled.
fn restart(labels: &mut Labels, room: &[i64])
    requires adders { length labels.old.adders.items ≡ length room.now }
    requires takers { length labels.old.takers.items ≡ length room.now }
    ensures adders_count { length labels.new.adders.items ≡ length room.now }
    ensures takers_count { length labels.new.takers.items ≡ length room.now }
    ensures next { labels.new.next ≡ 2 }
    ensures adders { (place : ℕ) → (label_at labels.new.adders.items place).rank ≡ 0 }
    ensures takers { (place : ℕ) → IsSeed (value_at room.now place) (label_at labels.new.takers.items place) }
{
    for place in 0..room.len() {
        labels.adders[place] = Label { rank: 0, via: 0 };
        labels.takers[place] = seed(room[place]);
    }
    labels.next = 2;
}

// Labels the adder.
fn label_adder(labels: &mut Labels, place: usize, via: usize)
    requires place { place < length labels.old.adders.items }
    requires next { labels.old.next ≤ 4096 }
    ensures adders { labels.new.adders.items
        ≡ slice_set labels.old.adders.items place (record { rank = labels.old.next; via = via }) }
    ensures takers { labels.new.takers.items ≡ labels.old.takers.items }
    ensures next { labels.new.next ≡ labels.old.next + 1 }
{
    let rank = labels.next;
    labels.adders[place] = Label { rank, via };
    labels.next = rank + 1;
}

// Labels the taker.
fn label_taker(labels: &mut Labels, place: usize, via: usize)
    requires place { place < length labels.old.takers.items }
    requires next { labels.old.next ≤ 4096 }
    ensures adders { labels.new.adders.items ≡ labels.old.adders.items }
    ensures takers { labels.new.takers.items
        ≡ slice_set labels.old.takers.items place (record { rank = labels.old.next; via = via }) }
    ensures next { labels.new.next ≡ labels.old.next + 1 }
{
    let rank = labels.next;
    labels.takers[place] = Label { rank, via };
    labels.next = rank + 1;
}

// Labels an end of the pair if the other end leads on.
fn visit(pairs: &[Amount], place: usize, labels: &mut Labels)
    requires place { place < length pairs.now }
    requires from { (pair_at pairs.now place).from < length labels.old.adders.items }
    requires to { (pair_at pairs.now place).to < length labels.old.takers.items }
    requires some { 0 < labels.old.next }
    requires next { labels.old.next ≤ 4096 }
    ensures grown { AreGrown labels.old.adders.items labels.old.takers.items labels.new.adders.items labels.new.takers.items
        labels.old.next labels.new.next }
    ensures labels { (room : List ℤ)
        → AreLabels pairs.now room labels.old.adders.items labels.old.takers.items labels.old.next
        → AreLabels pairs.now room labels.new.adders.items labels.new.takers.items labels.new.next }
    ensures visited { IsVisited pairs.now place labels.old.adders.items labels.old.takers.items
        labels.new.adders.items labels.new.takers.items labels.old.next labels.new.next }
{
    let pair = pairs[place];
    let from = pair.from as usize;
    let to = pair.to as usize;
    let adder = labels.adders[from].rank;
    let taker = labels.takers[to].rank;
    if taker > 0 {
        if adder > 0 {
            return;
        }
        label_adder(labels, from, place);
        return;
    }
    if adder == 0 {
        return;
    }
    if pair.amount <= 0 {
        return;
    }
    label_taker(labels, to, place);
}

// Whether the place is labelled and has more to give.
fn is_start(flow: &Flow, labels: &Labels, place: usize) -> bool
    requires more { place < length flow.now.more.items }
    requires adders { place < length labels.now.adders.items }
    ensures { IsTrue result
        ↔ ((0 < (label_at labels.now.adders.items place).rank) × (pos 0 <ℤ value_at flow.now.more.items place)) }
{
    labels.adders[place].rank > 0 && flow.more[place] > 0
}

// Visits each pair, until a place with more to give is labelled.
fn sweep(flow: &Flow, labels: &mut Labels) -> Option<usize>
    requires flow { IsFlow flow.now.pairs.items flow.now.more.items flow.now.room.items }
    requires adders { length labels.old.adders.items ≡ length flow.now.more.items }
    requires takers { length labels.old.takers.items ≡ length flow.now.more.items }
    requires few { labels.old.next + (unlabelled labels.old.adders.items + unlabelled labels.old.takers.items) ≤ 4096 }
    requires labels { AreLabels flow.now.pairs.items flow.now.room.items
        labels.old.adders.items labels.old.takers.items labels.old.next }
    ensures grown { AreGrown labels.old.adders.items labels.old.takers.items labels.new.adders.items labels.new.takers.items
        labels.old.next labels.new.next }
    ensures labels { AreLabels flow.now.pairs.items flow.now.room.items
        labels.new.adders.items labels.new.takers.items labels.new.next }
    ensures found { MatchOption result
        (labels.new.next ≡ labels.old.next → (place : ℕ) → place < length flow.now.pairs.items
        → IsSettled flow.now.pairs.items flow.now.more.items labels.new.adders.items labels.new.takers.items place)
        (λ start. (start < length flow.now.more.items) × (0 < (label_at labels.new.adders.items start).rank)
        × (pos 0 <ℤ value_at flow.now.more.items start)) }
{
    for place in 0..flow.pairs.len() {
        visit(flow.pairs.as_slice(), place, labels);
        let from = flow.pairs[place].from as usize;
        if is_start(flow, labels, from) {
            return Some(from);
        }
    }
    None
}

/// A place with more to give that labels lead on to room; None where none can be led there.
pub fn search(flow: &Flow, labels: &mut Labels) -> Option<usize>
    requires flow { IsFlow flow.now.pairs.items flow.now.more.items flow.now.room.items }
    requires adders { length labels.old.adders.items ≡ length flow.now.more.items }
    requires takers { length labels.old.takers.items ≡ length flow.now.more.items }
    ensures adders { length labels.new.adders.items ≡ length flow.now.more.items }
    ensures takers { length labels.new.takers.items ≡ length flow.now.more.items }
    ensures found { MatchOption result
        (AreClosed flow.now.pairs.items flow.now.more.items flow.now.room.items
        labels.new.adders.items labels.new.takers.items)
        (λ start. IsStart flow.now.pairs.items flow.now.more.items flow.now.room.items
        labels.new.adders.items labels.new.takers.items start) }
{
    restart(labels, flow.room.as_slice());
    'sweeps: loop {
        let before = labels.next;
        if let Some(start) = sweep(flow, labels) {
            return Some(start);
        }
        if labels.next == before {
            return None;
        }
    }
}
