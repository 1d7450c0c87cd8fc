//! The generated problem: that there is memory for it, and its text with two goals and the number that may not be.

use problem_gen::{GenFault, generate};
use std::alloc::Global;

const TWO_GOALS: &str = "class Tool extends Reusable { Tool(int c) { super(c); } }
class Line extends Timeline { predicate Job { int [0 9] kind; } }
Line::Job { eq(duration, 2); equals(Tool.uses u); eq(u.quantity, 1); }
PlannerConfig p = new PlannerConfig(0, 4, 100000);
Tool t = new Tool(1);
Line l = new Line();
close();
goal(l.Job g0);
eq(g0.start, 2);
eq(g0.kind, 0);
goal(l.Job g1);
eq(g1.start, 0);
eq(g1.kind, 1);
";

// Whether the text with so many goals is this one.
fn generates(alloc: Global, count: u32, text: &str) -> bool {
    match generate(alloc, count) {
        Ok(generated) => generated.as_slice() == text.as_bytes(),
        Err(_) => false,
    }
}

// Why there is no text with so many goals.
fn refused(alloc: Global, count: u32) -> Option<GenFault> {
    match generate(alloc, count) {
        Ok(_) => None,
        Err(fault) => Some(fault),
    }
}

#[test]
fn problems_are_generated(rt: HostRuntime) {
    assert!(rt; generates(rt.alloc(), 2, TWO_GOALS));
    assert!(rt; refused(rt.alloc(), 200).is_none());
    assert!(rt; refused(rt.alloc(), 201) == Some(GenFault::OutOfRange));
}
