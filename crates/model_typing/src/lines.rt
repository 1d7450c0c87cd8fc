//! Of which classes a term may be.

ghost use Rattle.std.specs.Prelude.{◌≡◌};
ghost use Rattle.eu_name.specs.declared.name.Part.TheVariants as parts;
ghost use Rattle.model_core.specs.declared.item.Term.TheVariants as named_terms;
ghost use Rattle.model_core.specs.Kinds.{IsObjectOf, IsPartOfClass, OfRule, IsInner};
ghost use Rattle.model_typing.specs.Ground.{AreClasses};
ghost use Rattle.model_typing.specs.Lines.{AreLinesOf, IsLine, line_in, lines_in};
ghost use Rattle.model_typing.specs.Terms.{IsPartLine, HasLocalLines, IsTermLine, scope_of};

use super::classes::object_at;
use super::finding::{pred_at, root_at, slot_at};
use super::line::Line;
use super::scope::TermScope;
use super::table::Classes;
use eu_name::name::Part;
use model_core::item::Term;
use model_core::model::Model;
use model_core::rule::Rule;

// The line of this number.
fn line_in(lines: &[Line], number: usize) -> Line
    ensures { result ≡ line_in lines.now number }
{
    match lines.get(number) {
        Some(line) => *line,
        None => Line::Nothing,
    }
}

// The classes of which the value is an object.
fn value_line(model: &Model, value: i32) -> Line
    ensures { IsLine model.now result (λ class. IsObjectOf model.now class value) }
{
    match object_at(model, value) {
        Some(object) => Line::From(object.class),
        None => Line::Nothing,
    }
}

// The classes of which the object is that a token of the predicate is on.
fn object_line(model: &Model, pred: u32) -> Line
    ensures { IsLine model.now result (λ class. IsPartOfClass model.now pred class parts.Object) }
{
    match pred_at(model, pred) {
        Some(found) => Line::From(found.class),
        None => Line::Nothing,
    }
}

// The line of a parameter in the table.
fn kept_line(table: &[Vec<Line>], pred: u32, number: u16) -> Line
    ensures { result ≡ line_in (lines_in table.now pred) number }
{
    match table.get(pred as usize) {
        Some(lines) => line_in(lines.as_slice(), usize::from(number)),
        None => Line::Nothing,
    }
}

// Those of a parameter, if it is an object.
fn param_line(model: &Model, classes: &Classes, pred: u32, number: u16) -> Line
    requires { AreClasses model.now classes.now }
    ensures { IsPartLine model.now pred (parts.Param number) result }
{
    kept_line(classes.params.as_slice(), pred, number)
}

// The classes of which a part of a token of the predicate is an object; its times are of none.
fn part_line(model: &Model, classes: &Classes, pred: u32, part: Part) -> Line
    requires { AreClasses model.now classes.now }
    ensures { IsPartLine model.now pred part result }
{
    match part {
        Part::Object => object_line(model, pred),
        Part::Param(number) => param_line(model, classes, pred, number),
        Part::Start => Line::Nothing,
        Part::End => Line::Nothing,
        Part::Duration => Line::Nothing,
    }
}

// The classes of which the global of this number is an object.
fn global_line(model: &Model, classes: &Classes, scope: TermScope<'_>, number: u32) -> Line
    requires { AreClasses model.now classes.now }
    ensures { IsTermLine model.now (scope_of scope.entry) (named_terms.Global number) result }
{
    line_in(classes.globals.as_slice(), number as usize)
}

// The classes of which a part of the root's token is an object, by the predicate of the root.
fn root_line(
    model: &Model,
    classes: &Classes,
    scope: TermScope<'_>,
    number: u32,
    part: Part,
) -> Line
    requires { AreClasses model.now classes.now }
    ensures { IsTermLine model.now (scope_of scope.entry) (named_terms.Root number part) result }
{
    match root_at(model, number) {
        Some(root) => part_line(model, classes, root.pred, part),
        None => Line::Nothing,
    }
}

// The classes of which a part of the token of the rule's slot is an object, by the predicate of the slot.
fn slot_line(
    model: &Model,
    classes: &Classes,
    pred: u32,
    rule: &Rule,
    number: u32,
    part: Part,
) -> Line
    requires { AreClasses model.now classes.now }
    ensures { IsTermLine model.now (OfRule pred rule.now) (named_terms.Slot number part) result }
{
    match slot_at(rule, number) {
        Some(slot) => part_line(model, classes, slot.pred, part),
        None => Line::Nothing,
    }
}

// The classes of which a local is an object, by the lines of the rule's locals.
fn local_line(model: &Model, pred: u32, rule: &Rule, locals: &[Line], number: u32) -> Line
    requires { AreLinesOf model.now rule.now.locals locals.now }
    ensures { IsTermLine model.now (OfRule pred rule.now) (named_terms.Local number) result }
{
    line_in(locals, number as usize)
}

// The classes of which a term of the rule is an object: a part of its token or of a slot's token, or a local.
fn inner_line(
    model: &Model,
    classes: &Classes,
    pred: u32,
    rule: &Rule,
    locals: &[Line],
    term: Term,
) -> Line
    requires classes { AreClasses model.now classes.now }
    requires locals { AreLinesOf model.now rule.now.locals locals.now }
    ensures { IsInner term → IsTermLine model.now (OfRule pred rule.now) term result }
{
    match term {
        Term::Here(part) => part_line(model, classes, pred, part),
        Term::Slot(number, part) => slot_line(model, classes, pred, rule, number, part),
        Term::Local(number) => local_line(model, pred, rule, locals, number),
        Term::Lit(_) => Line::Nothing,
        Term::Global(_) => Line::Nothing,
        Term::Root(_, _) => Line::Nothing,
    }
}

// The classes of such a term by the rule that is its scope; in the problem there is no such term.
fn scoped_line(model: &Model, classes: &Classes, scope: TermScope<'_>, term: Term) -> Line
    requires classes { AreClasses model.now classes.now }
    requires scoped { HasLocalLines model.now scope }
    ensures { IsInner term → IsTermLine model.now (scope_of scope.entry) term result }
{
    match scope {
        TermScope::InRule(pred, rule, locals) => {
            inner_line(model, classes, pred, rule, locals, term)
        }
        TermScope::InProblem => Line::Nothing,
    }
}

/// The classes of which the term is an object, whatever it stands for, if it is one.
pub fn term_line(model: &Model, classes: &Classes, scope: TermScope<'_>, term: Term) -> Line
    requires classes { AreClasses model.now classes.now }
    requires scoped { HasLocalLines model.now scope }
    ensures { IsTermLine model.now (scope_of scope.entry) term result }
{
    match term {
        Term::Lit(value) => value_line(model, value),
        Term::Global(number) => global_line(model, classes, scope, number),
        Term::Root(number, part) => root_line(model, classes, scope, number, part),
        Term::Here(_) => scoped_line(model, classes, scope, term),
        Term::Slot(_, _) => scoped_line(model, classes, scope, term),
        Term::Local(_) => scoped_line(model, classes, scope, term),
    }
}
