//! Calls that are offered and that the program doesn't make: which orders of two tokens are left, and what a step was.

use super::steps::is_text;
use decision_log::{Log, LogStep};
use eu_name::name::VarName;
use model_core::decision::Decision;
use std::alloc::{AllocError, Global};
use tests_samples::lines::Lines;
use timeline_core::ForcedOrder::{First, Neither, Open, Second};
use timeline_core::{Ends, ForcedOrder, forced};

// The least and the greatest start, then the least and the greatest end.
fn ends(numbers: [i32; 4]) -> Ends {
    let [start_lo, start_hi, end_lo, end_hi] = numbers;
    Ends {
        start_lo,
        start_hi,
        end_lo,
        end_hi,
    }
}

// The ends of two tokens of one timeline, and which orders of them are left.
const ORDERS: [([i32; 4], [i32; 4], ForcedOrder); 5] = [
    ([0, 9, 1, 10], [0, 9, 1, 10], Open),
    ([0, 2, 3, 5], [4, 6, 7, 9], First),
    ([4, 6, 7, 9], [0, 2, 3, 5], Second),
    ([0, 0, 3, 3], [3, 3, 5, 5], First),
    ([0, 2, 4, 6], [1, 3, 5, 7], Neither),
];

#[test]
fn orders_are_left_or_forced(rt: HostRuntime) {
    for (one, other, order) in &ORDERS {
        assert!(rt; forced(ends(*one), ends(*other)) == *order);
    }
}

// What a step was: put at the end, or taken out with this global first.
fn tell_step(log: &Log, number: u64, lines: &mut Lines) {
    match log.step_at(number) {
        None => lines.say("none"),
        Some(LogStep::Push) => lines.say("pushed"),
        Some(LogStep::Take(Decision::Specify(VarName::Global(global), _))) => {
            lines.numbered("out ", *global)
        }
        Some(LogStep::Take(_)) => lines.say("of a token"),
    }
    lines.end_line();
}

fn steps_told(alloc: Global, log: &Log) -> Result<String, AllocError> {
    let mut lines = Lines::new(alloc);
    for number in [0, 2, 3, 4, u64::MAX] {
        tell_step(log, number, &mut lines);
    }
    lines.into_text()
}

fn push_value(log: &mut Log, global: u32) -> Result<(), AllocError> {
    log.push(Decision::Specify(VarName::Global(global), 1))
}

// Of three decisions the last two are taken out.
fn leave_first(log: &mut Log) -> Result<(), AllocError> {
    let keep = [true, false, false];
    if log.standing().len() == keep.len() {
        log.take_out(&keep)?;
    }
    Ok(())
}

// Three globals get values, and those of the last two are taken out.
fn take_steps(log: &mut Log) -> Result<(), AllocError> {
    for global in [7, 8, 9] {
        push_value(log, global)?;
    }
    leave_first(log)
}

// What some steps of the log were. Only at its end the log is let go, since a proof goes through all that it drops.
fn steps(alloc: Global) -> Result<String, AllocError> {
    let mut log = Log::new(alloc);
    match take_steps(&mut log) {
        Ok(()) => steps_told(alloc, &log),
        Err(none) => Err(none),
    }
}

#[test]
fn steps_are_told_by_number(rt: HostRuntime) {
    assert!(rt; is_text(steps(rt.alloc()), "pushed\npushed\nout 8\nnone\nnone\n"));
}
