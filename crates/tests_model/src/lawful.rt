//! Which changes leave a lawful model lawful, by hand from what is asked of one.
//!
//! The model has the enum `Mode` of `slow` and `fast`; the classes `Rover`, `Arm` and `Cell` without fields; the objects
//! `spirit` and `twin` of class 0, `arm` of class 1 and `cell` of class 2; the predicates `At`, with the parameter `place`, of
//! class 0, `uses` of class 1, `produce` and `consume` of class 2; one rule, of `At`; the roots `base`, `here`, `there`,
//! `drill`, `sun` and `work`; and the globals `total` and `!1`, which are numbers, `mode` and the truth `on`.

use super::parts::{
    add, class_of, enum_of, global_of, item_of, object_of, placed_of, pred_of, root_of,
};
use super::rows::{number, value, word};
use super::ruled::add_rule;
use model_core::model::{Model, Problem};
use model_lawful::is_lawful;
use std::alloc::{AllocError, Global};
use std::process::Abort;
use tests_samples::mission::mission;

/// `times START END STEPS`
fn set_times(problem: &mut Problem, row: &str) {
    problem.start = value(word(row, 1));
    problem.end = value(word(row, 2));
    problem.steps = number(word(row, 3));
}

fn change_problem(alloc: Global, problem: &mut Problem, row: &str) -> Result<(), AllocError> {
    match word(row, 0) {
        "root" => add(&mut problem.roots, root_of(alloc, row)),
        "global" => add(&mut problem.globals, global_of(alloc, row)),
        "item" => add(&mut problem.items, item_of(alloc, row)),
        "decision" => add(&mut problem.decisions, placed_of(alloc, row)),
        _ => {
            set_times(problem, row);
            Ok(())
        }
    }
}

fn change(alloc: Global, model: &mut Model, row: &str) -> Result<(), AllocError> {
    match word(row, 0) {
        "enum" => add(&mut model.enums, enum_of(alloc, row)),
        "class" => add(&mut model.classes, class_of(alloc, row)),
        "object" => add(&mut model.objects, object_of(alloc, row)),
        "pred" => add(&mut model.preds, pred_of(alloc, row)),
        "rule" => add_rule(alloc, model, row),
        _ => change_problem(alloc, &mut model.problem, row),
    }
}

fn change_all(alloc: Global, model: &mut Model, rows: &str) -> Result<(), AllocError> {
    for row in rows.split("; ") {
        change(alloc, model, row)?;
    }
    Ok(())
}

fn judged_so(
    alloc: Global,
    done: Result<(), AllocError>,
    model: &Model,
) -> Result<bool, AllocError> {
    match done {
        Ok(()) => is_lawful(alloc, model),
        Err(none) => Err(none),
    }
}

// Whether the model is lawful after the changes.
fn judged(alloc: Global, rows: &str) -> Result<bool, AllocError> {
    let mut model = mission(alloc)?;
    let done = change_all(alloc, &mut model, rows);
    judged_so(alloc, done, &model)
}

fn is_judged(found: Result<bool, AllocError>, wanted: &str) -> bool {
    match found {
        Ok(true) => wanted == "lawful",
        Ok(false) => wanted == "not",
        Err(_none) => false,
    }
}

fn assert_row<R: Abort + AllocGlobal>(rt: &R, row: &str) {
    if !row.is_empty() {
        let (given, wanted) = row.rsplit_once(" | ").unwrap_or((row, ""));
        if !is_judged(judged(rt.alloc(), given), wanted) {
            panic!(rt; "{row}");
        }
    }
}

/// Asserts each row: changes with `; ` between them, and whether the model is lawful then.
fn assert_rows<R: Abort + AllocGlobal>(rt: &R, table: &str) {
    for row in table.split('\n') {
        assert_row(rt, row);
    }
}

const TIMES: &str = "
times 0 10 100 | lawful
times 0 1000000 1000000 | lawful
times -1 10 100 | not
times 10 10 100 | not
times 0 1000001 100 | not
times 0 10 0 | not
times 0 10 1000001 | not
";

#[test]
fn a_horizon_has_times_and_steps(rt: HostRuntime) {
    assert_rows(&rt, TIMES);
}

const TYPES: &str = "
enum Site rock hill | lawful
enum Site | not
enum class rock | not
enum Site rock rock | not
enum Site slow | not
enum Timeline rock | not
class Timeline - int 0..9 | lawful
class spirit - int 0..9 | not
class Base 0 int 0..9 | lawful
class Base 9 int 0..9 | not
class Base 3 int 0..9 | not
class Base - int 0..9 x y | lawful
class Base - int 0..9 x x | not
class Base - 0 0..1 x | not
class Base - int 0..9 x; class More 3 int 0..9 x y | lawful
class Base - int 0..9 x; class More 3 int 0..9 y x | not
class Base - int 0..9 x; class More 3 int 0..9 | not
";

#[test]
fn types_are_judged(rt: HostRuntime) {
    assert_rows(&rt, TYPES);
}

// That a value of a field is an object of the field's own class isn't asked.
const OBJECTS: &str = "
object spare 0 plain | lawful
object spare 9 plain | not
object spare 0 plain 5 | not
object twin 0 plain | not
object spirit.arm 0 plain | lawful
object spirit. 0 plain | not
object spare 1 reusable=0 | lawful
object spare 1 reusable=-1 | not
object spare 2 reservoir=10 | lawful
object spare 2 reservoir=11 | not
class Box - object 0 owner; object box 3 plain 2 | lawful
class Box - object 0 owner; object box 3 plain 9 | not
class Box - object 0 owner; object box 3 plain | not
";

#[test]
fn objects_are_judged(rt: HostRuntime) {
    assert_rows(&rt, OBJECTS);
}

const VARIABLES: &str = "
global more int 0..9 | lawful
global more int void | not
global more object void | lawful
global more object 3 | lawful
global more object 4 | not
global more object 0..3 | not
global more bool 1 | lawful
global more bool 2 | not
global more 0 1 | lawful
global more 0 2 | not
global more 1 0 | not
global !4 int 0..9 | lawful
global !5 int 0..9 | not
global here int 0..9 | not
";

#[test]
fn globals_are_judged(rt: HostRuntime) {
    assert_rows(&rt, VARIABLES);
}

const PREDICATES: &str = "
pred 0 Go far int 0..9 plain | lawful
pred 9 Go far int 0..9 plain | not
pred 0 At far int 0..9 plain | not
pred 1 At far int 0..9 plain | lawful
pred 0 Go start int 0..9 plain | not
pred 0 Go far bool 0..1 plain | not
pred 0 Go far int 0..1000000 uses | not
pred 0 Go quantity int 0..1000000 uses | lawful
pred 0 Go quantity int 0..9 uses | not
class Box - int 0..9 size; pred 3 Go far int 0..9 plain | lawful
class Box - int 0..9 size; pred 3 size far int 0..9 plain | not
";

#[test]
fn predicates_are_judged(rt: HostRuntime) {
    assert_rows(&rt, PREDICATES);
}

const RULES: &str = "
rule 0 0, s0 l0 b0 e0 | lawful
rule 9 0, s0 l0 | not
rule 0 2, s0 l0 | not
rule 0 9, s0 l0 | not
rule 0 void, s0 l0 | lawful
rule 0 0, s0 s0 l0 | not
rule 0 0, l0 | not
rule 0 0, s0 | not
rule 0 0, s0 s1 l0 | not
rule 0 0, s0 l0 l1 | not
rule 0 0, s0 l0 b1 | not
rule 0 0, s0 l0 / b0 / e0 | lawful
rule 0 0, l0 / s0 b0 / e0 | lawful
rule 0 0, l0 / s0 / b0 | not
rule 0 0, s0 e0 / l0 / b0 | not
";

#[test]
fn rules_are_judged(rt: HostRuntime) {
    assert_rows(&rt, RULES);
}

const POSTED: &str = "
root more 0 0 | lawful
root more 9 0 | not
root more 0 2 | not
root more 0 9 | not
root here 0 0 | not
root new 0 0 | not
pred 0 Go where object 2 plain; root more 4 0 | lawful
pred 0 Go where object void plain; root more 4 0 | not
decision 0 0 9 | lawful
decision 9 0 3 | not
decision 0 7 3 | not
decision 0 0 1000001 | not
";

#[test]
fn roots_and_decisions_are_judged(rt: HostRuntime) {
    assert_rows(&rt, POSTED);
}

const ITEMS: &str = "
item eq g0 5 | lawful
item eq g0 g3 | not
item eq g3 1 | lawful
item eq g3 2 | not
item eq g0 | not
item eq g0 g9 | not
item eq g0 start | not
item leq g0 r0 | lawful
item leq g3 g0 | not
item mulEq g0 2 g1 | lawful
item mulEq g0 g1 g1 | not
item mulEq g0 0 g1 | not
item testEQ g3 g0 g1 | lawful
item testEQ g0 g0 g1 | not
item before | not
class Box - int 0..9 size; object box 3 plain 5; global which object 4; item field g4 g0 | lawful
class Box - int 0..9 size; object box 3 plain 5; global which object 0; item field g4 g0 | not
class Box - int 0..9 size; object box 3 plain 5; global which object 4; item field g4 g3 | not
";

#[test]
fn items_are_judged(rt: HostRuntime) {
    assert_rows(&rt, ITEMS);
}
