//! Writes the names of places in a plan.

ghost use Rattle.std.specs.Prelude.{◌≡◌, ◌++◌, ℕ, ℤ, false, List, Some, OnOk, codes, slice_get};
ghost use Rattle.std.specs.Fmt.{decimal, signed_decimal};
ghost use Rattle.eu_name.specs.declared.name.TokenName.{TokenName};
ghost use Rattle.eu_name.specs.declared.name.VarName.TheVariants as variables;
ghost use Rattle.model_core.specs.declared.class.Object.{Object};
ghost use Rattle.model_core.specs.declared.model.Root.{Root};
ghost use Rattle.model_core.specs.declared.variable.Base.{Base};
ghost use Rattle.model_core.specs.declared.variable.VarDecl.{VarDecl};
ghost use Rattle.model_core.specs.Lawful.{IsLawful, IsToken};
ghost use Rattle.model_core.specs.Tokens.{IsRoot, root_token, slot_token};
ghost use Rattle.model_core.specs.Variables.{IsGlobal, HasBase};
ghost use Rattle.plan_text.specs.Subjects.{IsNameOf, NamesSubject};
ghost use Rattle.plan_defs.specs.declared.plan.Line as the_line;
ghost use Rattle.plan_defs.specs.declared.plan.Line.TheVariants as lines;
ghost use Rattle.plan_defs.specs.declared.plan.Place.TheVariants as places;
ghost use Rattle.plan_defs.specs.Plans.{IsPlanOf, IsLineOf, order_name};
ghost use Rattle.plan_defs.specs.Valid.{IsLineAt, IsActivatedAt};
ghost use Rattle.plan_report.specs.Naming.{IsTokenWord, IsLineWord, IsPlaceText, HasNames, AddsSpaced, IsNamedAlike};

use eu_name::name::{TokenName, VarName};
use eu_name::sequence::Sequence;
use itoa::Buffer;
use model_core::model::Model;
use model_core::slot_names::slot_name;
use plan_defs::plan::{Line, Place, Plan};
use plan_text::writing::{put_number, put_token, put_variable, put_word};
use std::alloc::{AllocError, Global};

// The name of a global or a local, behind a space.
fn put_single(
    out: &mut Vec<u8>,
    alloc: Global,
    model: &Model,
    name: &VarName,
) -> Result<(), AllocError>
    requires lawful { IsLawful model.now }
    requires there { (base : Base) × HasBase model.now name.now base }
    requires alike { IsNamedAlike model.now name.now }
    ensures { OnOk result (AddsSpaced (IsNameOf model.now name.now) out.old.items out.new.items) }
{
    put_variable(out, b" ", alloc, model, name)
}

// The name of a token, behind a space.
fn put_token_word(
    out: &mut Vec<u8>,
    alloc: Global,
    model: &Model,
    token: &TokenName,
) -> Result<(), AllocError>
    requires lawful { IsLawful model.now }
    requires there { IsToken model.now token.now }
    ensures { OnOk result (AddsSpaced (IsTokenWord model.now token.now) out.old.items out.new.items) }
{
    put_token(out, b" ", alloc, model, token)
}

// The name of a global, behind a space.
fn put_global(
    out: &mut Vec<u8>,
    alloc: Global,
    model: &Model,
    number: u32,
) -> Result<(), AllocError>
    requires lawful { IsLawful model.now }
    requires there { (variable : VarDecl) × IsGlobal model.now number variable }
    ensures { OnOk result (AddsSpaced (IsNameOf model.now (variables.Global number)) out.old.items out.new.items) }
{
    let name = VarName::Global(number);
    put_single(out, alloc, model, &name)
}

// The label of a root, behind a space.
fn put_root(out: &mut Vec<u8>, alloc: Global, model: &Model, number: u32) -> Result<(), AllocError>
    requires lawful { IsLawful model.now }
    requires there { (root : Root) × IsRoot model.now number root }
    ensures { OnOk result (AddsSpaced (IsTokenWord model.now (root_token number)) out.old.items out.new.items) }
{
    let steps = Sequence::new(alloc);
    let token = TokenName {
        root: number,
        steps,
    };
    put_token_word(out, alloc, model, &token)
}

// The name of the token or the local of the line, behind a space.
fn put_line_name(
    out: &mut Vec<u8>,
    alloc: Global,
    model: &Model,
    line: &Line,
) -> Result<(), AllocError>
    requires lawful { IsLawful model.now }
    requires is_line { IsLineOf model.now line.now }
    ensures { OnOk result (AddsSpaced (IsNameOf model.now (order_name line.now)) out.old.items out.new.items) }
{
    match line {
        Line::Token { name, .. } => put_token_word(out, alloc, model, name),
        Line::Merged { name, .. } => put_token_word(out, alloc, model, name),
        Line::Rejected { name } => put_token_word(out, alloc, model, name),
        Line::Local { name, .. } => put_single(out, alloc, model, name),
    }
}

// The name of the token or the local of the line at this place, behind a space.
fn put_line_at(
    out: &mut Vec<u8>,
    alloc: Global,
    model: &Model,
    plan: &Plan,
    line: u32,
) -> Result<(), AllocError>
    requires lawful { IsLawful model.now }
    requires is_plan { IsPlanOf model.now plan.now }
    requires there { (said : the_line.Line) × IsLineAt plan.now line said }
    ensures { OnOk result (AddsSpaced (IsLineWord model.now plan.now line) out.old.items out.new.items) }
{
    let said = &plan.lines.as_slice()[line as usize];
    put_line_name(out, alloc, model, said)
}

// The token of the line.
fn token_of(line: &Line) -> &TokenName
    requires { (token : TokenName) × (values : List ℤ) × (line.now ≡ lines.Token token false values) }
    ensures { (values : List ℤ) × (line.now ≡ lines.Token result.now false values) }
{
    match line {
        Line::Token { name, .. } => name,
        Line::Merged { .. } | Line::Rejected { .. } | Line::Local { .. } => unreachable!(),
    }
}

// The token that takes place by the line at this place.
fn token_at(plan: &Plan, line: u32) -> &TokenName
    requires { (token : TokenName) × IsActivatedAt plan.now line token }
    ensures { IsActivatedAt plan.now line result.now }
{
    token_of(&plan.lines.as_slice()[line as usize])
}

// The token of a slot in a rule of the token that takes place by the line, behind a space.
fn put_slot(
    out: &mut Vec<u8>,
    alloc: Global,
    model: &Model,
    plan: &Plan,
    line: u32,
    rule: u16,
    slot: u16,
) -> Result<(), AllocError>
    requires lawful { IsLawful model.now }
    requires there { HasNames model.now plan.now (places.Slot line rule slot) }
    ensures { OnOk result (AddsSpaced (IsPlaceText model.now plan.now (places.Slot line rule slot)) out.old.items out.new.items) }
{
    let token = slot_name(token_at(plan, line), rule, slot)?;
    put_token_word(out, alloc, model, &token)
}

// The local of a rule of the token that takes place by the line, behind a space.
fn put_local(
    out: &mut Vec<u8>,
    alloc: Global,
    model: &Model,
    plan: &Plan,
    line: u32,
    rule: u16,
    number: u16,
) -> Result<(), AllocError>
    requires lawful { IsLawful model.now }
    requires there { HasNames model.now plan.now (places.Local line rule number) }
    ensures { OnOk result (AddsSpaced (IsPlaceText model.now plan.now (places.Local line rule number)) out.old.items out.new.items) }
{
    let token = token_at(plan, line).copy()?;
    let name = VarName::Local {
        token,
        rule,
        number,
    };
    put_single(out, alloc, model, &name)
}

// The number, behind the mark.
fn put_count(out: &mut Vec<u8>, mark: &[u8], number: u32) -> Result<(), AllocError>
    ensures { OnOk result (out.new.items ≡ out.old.items ++ (mark.now ++ decimal number)) }
{
    let mut buffer = Buffer::new();
    put_word(out, mark, buffer.format(number).as_bytes())
}

// An item of the problem, behind a space.
fn put_problem(out: &mut Vec<u8>, item: u32) -> Result<(), AllocError>
    ensures { OnOk result (out.new.items ≡ out.old.items ++ (codes " " ++ (codes "problem " ++ decimal item))) }
{
    put_count(out, b" problem ", item)
}

// An item of a rule of the token of the line, behind a space.
fn put_item(
    out: &mut Vec<u8>,
    alloc: Global,
    model: &Model,
    plan: &Plan,
    line: u32,
    rule: u16,
    item: u32,
) -> Result<(), AllocError>
    requires lawful { IsLawful model.now }
    requires is_plan { IsPlanOf model.now plan.now }
    requires there { (said : the_line.Line) × IsLineAt plan.now line said }
    ensures { OnOk result (AddsSpaced (IsPlaceText model.now plan.now (places.Item line rule item)) out.old.items out.new.items) }
{
    put_line_at(out, alloc, model, plan, line)?;
    let number = u32::from(rule);
    put_count(out, b"/", number)?;
    put_count(out, b" ", item)
}

// The tokens of two lines, behind a space.
fn put_pair(
    out: &mut Vec<u8>,
    alloc: Global,
    model: &Model,
    plan: &Plan,
    one: u32,
    other: u32,
) -> Result<(), AllocError>
    requires lawful { IsLawful model.now }
    requires is_plan { IsPlanOf model.now plan.now }
    requires there { HasNames model.now plan.now (places.Pair one other) }
    ensures { OnOk result (AddsSpaced (IsPlaceText model.now plan.now (places.Pair one other)) out.old.items out.new.items) }
{
    put_line_at(out, alloc, model, plan, one)?;
    put_line_at(out, alloc, model, plan, other)
}

// An object at an instant, behind a space.
fn put_instant(out: &mut Vec<u8>, model: &Model, number: u32, at: i32) -> Result<(), AllocError>
    requires { (object : Object) × (slice_get model.now.objects number ≡ Some object) }
    ensures { OnOk result (AddsSpaced
        (λ text. (object : Object) × ((slice_get model.now.objects number ≡ Some object)
        × (text ≡ object.name ++ (codes " " ++ signed_decimal at)))) out.old.items out.new.items) }
{
    let object = &model.objects.as_slice()[number as usize];
    put_word(out, b" ", object.name.as_bytes())?;
    put_number(out, b" ", at)
}

/// The names of the place, behind a space.
pub fn put_place(
    out: &mut Vec<u8>,
    alloc: Global,
    model: &Model,
    plan: &Plan,
    place: Place,
) -> Result<(), AllocError>
    requires lawful { IsLawful model.now }
    requires is_plan { IsPlanOf model.now plan.now }
    requires there { HasNames model.now plan.now place }
    ensures { OnOk result (AddsSpaced (IsPlaceText model.now plan.now place) out.old.items out.new.items) }
{
    match place {
        Place::Global(number) => put_global(out, alloc, model, number),
        Place::Root(number) => put_root(out, alloc, model, number),
        Place::Line(line) => put_line_at(out, alloc, model, plan, line),
        Place::Slot { line, rule, slot } => put_slot(out, alloc, model, plan, line, rule, slot),
        Place::Local { line, rule, number } => put_local(
            out, alloc, model, plan, line, rule, number,
        ),
        Place::Problem(item) => put_problem(out, item),
        Place::Item { line, rule, item } => put_item(out, alloc, model, plan, line, rule, item),
        Place::Pair(one, other) => put_pair(out, alloc, model, plan, one, other),
        Place::Instant { object, at } => put_instant(out, model, object, at),
    }
}
