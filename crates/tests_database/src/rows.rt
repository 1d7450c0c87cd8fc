//! Steps on the two models, with what each answers as it was worked out by hand from what a state is. Behind `== ` and what is
//! shown stand the steps, a line each; one that answers something has its answer behind ` | `. A line that begins with `#` is a
//! comment. One text costs the prover little, where an array of as many steps costs it seconds.

use super::deciding::Steps;
use super::trial::{told_on_mission, told_on_rounds};
use std::alloc::AllocError;
use std::process::Abort;

// On the mission the horizon is from 0 to 10.
const ON_MISSION: &str = "
== nothing is decided
tokens base here there drill sun work
domain total | 0 5 6
domain !1 | 0 5 6
domain mode | 0 0 1
domain here.start | 0 9 10
domain here.end | 1 10 10
domain here.duration | 1 10 10
domain here.object | 0 0 1
fate base | Fact
fate here | Inactive
fate here/0:1 | Absent
unknown here/0:1.start
stand
history | 0
flawed
undo | Refused(Nothing)
backtrack | Refused(Nothing)
== a block opens with its guard, and closes with undo
activate here | Fits
tokens base here there drill sun work here/0:1
unknown here/0!0
specify here.place 3 | Fits
tokens base here there drill sun work here/0:1
domain here/0!0 | 0 9 10
specify here/0:1.quantity 2 | Fits
domain here/0!0 | 0 2 3
undo | Fits
domain here/0!0 | 0 9 10
undo | Fits
unknown here/0!0
specify here.place 2 | Fits
tokens base here there drill sun work here/0:0 here/0:1
unknown here/0!0
fate here/0:0 | Inactive
domain here.start | 1 9 9
domain here/0:0.end | 1 9 9
backtrack | Done
fate here/0:0 | Absent
domain here.start | 0 9 10
== what a block asked for goes with the decision that opened it, and comes back
activate here | Fits
specify here.place 2 | Fits
activate here/0:0 | Fits
specify total 3 | Fits
reset variable here.place | Fits
tokens base here there drill sun work here/0:1
stand activate here, specify total 3
history | 5
undo | Fits
stand activate here, specify here.place 2, activate here/0:0, specify total 3
history | 4
fate here/0:0 | Active
fate here/0:0/0:1 | Inactive
== a merged token has the values of the other
activate here | Fits
specify here.place 2 | Fits
domain base.end | 1 10 10
merge here/0:0 base | Fits
fate here/0:0 | Merged(0)
domain base.end | 1 9 9
domain here/0:0.place | 0 3 4
specify base.place 1 | Fits
domain here/0:0.place | 1 1 1
specify here.start 4 | Fits
domain base.end | 1 4 4
reset token here/0:0 | Fits
domain base.place | 1 1 1
domain here/0:0.place | 0 3 4
fate here/0:0 | Inactive
== no token comes before itself, and where nothing is possible only going back is
activate here | Fits
specify here.place 2 | Fits
merge here/0:0 here | Fails
unseen
specify total 3 | Refused(InInconsistent)
history | 3
backtrack | Done
fate here/0:0 | Inactive
specify total 3 | Fits
== what speaks of a rejectable counts while it takes place
specify there.place 1 | Refused(NotActive)
activate drill | Fits
specify drill.start 5 | Fits
domain there.start | 0 9 10
activate there | Fits
domain there.start | 5 9 5
domain there/0:1.start | 5 9 5
undo | Fits
domain there.start | 0 9 10
reject there | Fits
fate there | Rejected
domain there.start | 0 9 10
specify there.place 1 | Refused(NotActive)
reset token there | Fits
fate there | Inactive
== a fact is there, isn't decided, and has no rules
specify base.place 2 | Fits
domain base.place | 2 2 1
tokens base here there drill sun work
activate base | Refused(Decided)
reject base | Refused(Decided)
merge base base | Refused(Decided)
fate base | Fact
== tokens of one timeline don't overlap
specify base.start 0 | Fits
specify base.end 5 | Fits
domain here.start | 0 9 10
activate here | Fits
domain here.start | 5 9 5
domain here.end | 6 10 5
order here base | Fails
backtrack | Done
ordered here base | false
order base here | Fits
ordered base here | true
ordered here base | false
order base here | Refused(Decided)
reset order here base | Refused(NoSuchDecision)
reset order base here | Fits
ordered base here | false
stand specify base.start 0, specify base.end 5, activate here
specify here.start 4 | Fails
unseen
reset variable base.end | Fits
domain base.end | 1 4 4
== no more than two uses at a time
activate here | Fits
activate here/0:1 | Fits
specify here/0:1.quantity 2 | Fits
specify here.start 2 | Fits
specify here.end 4 | Fits
domain here/0:1.start | 2 2 1
domain here/0:1.duration | 2 2 1
activate drill | Fits
specify drill.quantity 1 | Fits
specify drill.end 6 | Fits
specify drill.start 4 | Fits
reset variable drill.start | Fits
specify drill.start 3 | Fails
undo | Fits
domain drill.start | 0 5 6
specify drill.start 5 | Fits
== a level stays within its limits, once all tokens are decided
merge here base | Fits
reject there | Fits
activate sun | Fits
activate work | Fits
specify sun.quantity 6 | Fits
specify work.quantity 6 | Fits
specify work.start 2 | Fits
specify sun.start 4 | Fits
reject drill | Fails
reset variable sun.start | Fits
fate drill | Rejected
specify sun.start 3 | Fails
undo | Fits
specify sun.start 2 | Fits
== a level that gets too high
merge here base | Fits
reject there | Fits
reject drill | Fits
reject work | Fits
activate sun | Fits
specify sun.quantity 6 | Fails
backtrack | Done
specify sun.quantity 5 | Fits
== of two reasons against a decision the first is told
merge base here/0:1 | Refused(Unknown)
specify here/0!0 1 | Refused(Unknown)
specify total 4 | Fits
specify total 11 | Refused(Decided)
specify there.place 4 | Refused(NotInDomain)
merge here drill | Refused(NotActive)
order there there | Refused(NotActive)
activate drill | Fits
merge here drill | Refused(NotSamePredicate)
reject drill | Refused(Decided)
reject here | Refused(NotRejectable)
order base base | Refused(Same)
reset token here | Refused(NoSuchDecision)
stand specify total 4, activate drill
history | 2
== a constraint that is posted takes each argument in its kind
post leq total 3 | Fits
domain total | 0 3 4
post leq total 3 | Refused(Decided)
post leq here/0!0 3 | Refused(Unknown)
post leq total | Refused(WrongType)
post leq 1 2 | Refused(WrongType)
post eq total mode | Refused(WrongType)
post lt mode 1 | Refused(WrongType)
post testEQ total total 3 | Refused(WrongType)
post mulEq total 0 total | Refused(WrongType)
post mulEq total total 3 | Refused(WrongType)
post allDiff total 3 | Refused(WrongType)
post field here.object 3 | Refused(WrongType)
post leq total 1000001 | Refused(NotInDomain)
# what no line of a script can say: values that have no text in their kind
post eq mode 2 | Refused(NotInDomain)
post eq on 2 | Refused(NotInDomain)
post eq here.object 9 | Refused(NotInDomain)
post testEQ 2 total 3 | Refused(NotInDomain)
post leq there.start 3 | Refused(NotActive)
reset constraint leq total 4 | Refused(NoSuchDecision)
reset constraint leq total 3 | Fits
domain total | 0 5 6
history | 2
undo | Fits
domain total | 0 3 4
stand post leq total 3
backtrack | Done
domain total | 0 5 6
== a relation compares times, whether its tokens are active or not
relate before here there | Refused(NotActive)
relate before there there | Refused(NotActive)
relate before here here | Refused(Same)
relate before base here | Fits
domain here.start | 1 9 9
domain base.end | 1 9 9
relate before base here | Refused(Decided)
ordered base here | false
reset relation before here base | Refused(NoSuchDecision)
reset relation before base here | Fits
domain here.start | 0 9 10
undo | Fits
domain here.start | 1 9 9
rebuild | Done
domain here.start | 1 9 9
stand relate before base here
== what is posted falls with a rejectable that is no longer taken
activate there | Fits
post leq there.start 4 | Fits
relate before there here | Fits
domain there.start | 0 4 5
reset token there | Fits
stand
undo | Fits
stand activate there, post leq there.start 4, relate before there here
domain there.start | 0 4 5
== the plan of a state, where nothing is open
specify total 4 | Fits
specify !1 0 | Fits
specify base.start 0 | Fits
specify base.end 1 | Fits
reject there | Fits
reject drill | Fits
reject sun | Fits
merge here base | Fits
specify base.place 1 | Fits
flawed
reject work | Fits
plan MERGED
reset variable base.place | Fits
flawed
specify base.place 1 | Fits
reset token here | Fits
activate here | Fits
specify here.place 3 | Fits
specify here.start 2 | Fits
specify here.duration 2 | Fits
activate here/0:1 | Fits
specify here/0:1.quantity 1 | Fits
flawed
specify here/0!0 1 | Fits
plan ACTIVE
== tokens that overlap, and no edge of that
specify total 3 | Fits
specify base.start 0 | Fits
specify base.end 5 | Fits
activate here | Fits
specify here.start 4 | Fails
why specify base.end 5, activate here, specify here.start 4
cycle
";

// On the rounds too the horizon is from 0 to 10.
const ON_ROUNDS: &str = "
== one variable is at most another
specify x 4 | Fits
domain y | 4 10 7
undo | Fits
domain y | 0 10 11
specify z 1 | Fits
specify x 4 | Fits
specify x 5 | Refused(Decided)
specify y 11 | Refused(NotInDomain)
specify y 3 | Fails
unseen
reset variable y | Fits
domain y | 4 10 7
reset variable y | Refused(NoSuchDecision)
undo | Fails
reset variable x | Fits
domain x | 0 3 4
stand specify z 1, specify y 3
== only a decision is taken back with no memory
specify x 4 | Fits
specify y 5 | Fits
reset variable x | Fits
backtrack | Refused(Nothing)
stand specify y 5
undo | Fits
backtrack | Done
stand specify x 4
history | 1
domain y | 4 10 7
== what is built anew is the same
specify x 4 | Fits
activate one | Fits
activate link | Fits
rebuild | Done
stand specify x 4, activate one, activate link
domain y | 4 10 7
fate link/0:0 | Inactive
backtrack | Done
fate link/0:0 | Absent
undo | Fits
fate one | Inactive
domain y | 4 10 7
== merges go with their targets, and come back
activate link | Fits
merge link/0:0 link | Fits
activate other | Fits
merge other/0:0 link | Fits
fate other/0:0 | Merged(3)
reset token link | Fits
stand activate other
merge other/0:0 other/0:0 | Refused(NotActive)
order other other | Refused(Same)
undo | Fits
stand activate link, merge link/0:0 link, activate other, merge other/0:0 link
fate other/0:0 | Merged(3)
== two tokens of one track may touch
activate one | Fits
activate two | Fits
specify one.start 0 | Fits
specify one.end 5 | Fits
specify two.start 5 | Fits
domain two.end | 6 10 5
reset variable two.start | Fits
domain two.start | 5 9 5
specify two.start 4 | Fails
== three tokens in a circle
activate one | Fits
activate two | Fits
activate three | Fits
order one two | Fits
order two three | Fits
domain three.start | 2 9 8
order three one | Fails
undo | Fits
domain three.start | 2 9 8
domain one.end | 1 8 8
reset token two | Fits
stand activate one, activate three
domain three.start | 0 9 10
== no token without an object
activate lost | Fails
unseen
undo | Fits
activate other | Fits
fate other/0:0 | Inactive
activate lost | Fails
backtrack | Done
reject lost | Fits
fate lost | Rejected
== what has no part in it is left out of a conflict, and asking changes nothing
specify z 1 | Fits
no reason | Consistent
specify x 5 | Fits
specify y 3 | Fails
why specify x 5, specify y 3
cycle
stand specify z 1, specify x 5, specify y 3
history | 3
undo | Fits
domain y | 5 10 6
== one decision can be the whole conflict
specify x 5 | Fits
activate link | Fits
activate lost | Fails
why activate lost
cycle
history | 3
== a decision stays in a conflict for the sake of those that it allows
activate link | Fits
activate other | Fits
merge other/0:0 link | Fits
specify link.start 2 | Fits
specify other/0:0.start 3 | Fails
why activate link, activate other, merge other/0:0 link, specify link.start 2, specify other/0:0.start 3
# the cycle goes through the merged token: its start is its target's
cycle origin 3 link.start, link.start -2 origin
== three tokens in a circle, and why
activate one | Fits
activate two | Fits
activate three | Fits
specify z 4 | Fits
order one two | Fits
order two three | Fits
order three one | Fails
cycle one.start 1 one.end, one.end 0 two.start, two.start 1 two.end, two.end 0 three.start, three.start 1 three.end, three.end 0 one.start
why activate one, activate two, activate three, order one two, order two three, order three one
history | 7
undo | Fits
domain three.start | 2 9 8
no reason | Consistent
== what is posted has a part in conflicts and in cycles
activate one | Fits
activate two | Fits
post lt one.end two.start | Fits
domain two.start | 2 9 8
relate meets two one | Fails
why post lt one.end two.start, relate meets two one
cycle one.start 1 one.end, one.end 1 two.start, two.start 1 two.end, two.end 0 one.start
undo | Fits
no reason | Consistent
domain two.start | 2 9 8
== a duration that is decided last is read from the decision
activate one | Fits
specify one.start 4 | Fits
specify one.end 6 | Fits
specify one.duration 3 | Fails
cycle origin 4 one.start, one.start 3 one.end, one.end -6 origin
why specify one.start 4, specify one.end 6, specify one.duration 3
";

// The number of the first step that was answered otherwise, or that of the title where there was no memory.
fn wrong_in(told: Result<Option<usize>, AllocError>) -> Option<usize> {
    match told {
        Ok(wrong) => wrong,
        Err(_none) => Some(0),
    }
}

// Asserts that no step of the row was answered otherwise.
fn assert_right<R: Abort>(rt: &R, row: &str, told: Result<Option<usize>, AllocError>) {
    if let Some(number) = wrong_in(told) {
        panic!(rt; "{number} in {row}");
    }
}

#[test]
fn the_mission_answers(rt: HostRuntime) {
    for row in ON_MISSION.split("\n== ") {
        assert_right(&rt, row, told_on_mission(rt.alloc(), &Steps(row)));
    }
}

#[test]
fn the_rounds_answer(rt: HostRuntime) {
    for row in ON_ROUNDS.split("\n== ") {
        assert_right(&rt, row, told_on_rounds(rt.alloc(), &Steps(row)));
    }
}
