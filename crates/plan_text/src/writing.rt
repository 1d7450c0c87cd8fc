//! Writing of plan texts.

ghost use Rattle.std.specs.Prelude.{◌≡◌, ◌+◌, ◌%◌, ◌++◌, ◌∷◌, [], ◌<◌, List, ℕ, pos, int_lt, length, map, All, IfOk, OnOk, codes, if◌then◌else◌};
ghost use Rattle.std.specs.Fmt.{signed_decimal};
ghost use Rattle.std.specs.List.{AllZip};
ghost use Rattle.eu_name.specs.declared.name.Part.TheVariants.{Start};
ghost use Rattle.eu_name.specs.declared.name.VarName.TheVariants as variables;
ghost use Rattle.eu_name.specs.declared.name_text.NameText.{NameText};
ghost use Rattle.eu_name.specs.Spelling.{name_spelling};
ghost use Rattle.eu_name.specs.Word.{IsName};
ghost use Rattle.model_core.specs.declared.variable.Base.{Base};
ghost use Rattle.model_core.specs.declared.variable.ValueKind.{ValueKind};
ghost use Rattle.model_core.specs.declared.variable.ValueKind.TheVariants as kinds;
ghost use Rattle.model_core.specs.declared.variable.VarDecl.{VarDecl};
ghost use Rattle.model_core.specs.declared.class.Object.{Object};
ghost use Rattle.model_core.specs.Kinds.{IsValueOf, IsMemberOf, IsObject};
ghost use Rattle.model_core.specs.Lawful.{IsLawful, IsToken};
ghost use Rattle.model_core.specs.Names.{NamesToken, NamesVariable};
ghost use Rattle.model_core.specs.Naming.{names_of};
ghost use Rattle.model_core.specs.Variables.{IsGlobal, HasBase};
ghost use Rattle.plan_defs.specs.declared.plan.Line.TheVariants as lines;
ghost use Rattle.plan_defs.specs.Plans.{IsPlanOf, IsLineOf, AreTokenValues, IsLocalValue};
ghost use Rattle.plan_text.specs.declared.statement.Keyword.TheVariants as keywords;
ghost use Rattle.plan_text.specs.declared.statement.Statement.TheVariants as statements;
ghost use Rattle.plan_text.specs.Lines.{keyword_text, OneKeyword, OnePart, FirstParts, LastParts, TokenValues};
ghost use Rattle.plan_text.specs.PlanTexts.{global_statements, IsPlanText};
ghost use Rattle.plan_text.specs.Subjects.{IsNameOf, IsLocalOfKind, OnePredicate};
ghost use Rattle.plan_text.specs.Values.{decimal_text, thousandths_text, IsMemberNamed, IsValueText, OneValue};
ghost use Rattle.plan_text.specs.Words.{IsPaused, IsUnbroken};
ghost use Rattle.plan_text.specs.Writing.{Adds, AddsLine, AddsLines, EndsLine};

use super::names::{local_kind, pred_of};
use super::statement::Keyword;
use eu_name::bytes::Bytes;
use eu_name::name::{TokenName, VarName};
use eu_name::name_text::{NameText, Tail};
use eu_name::writing::write_name;
use itoa::Buffer;
use model_core::model::Model;
use model_core::variable::{ValueKind, VarDecl};
use plan_defs::plan::{Line, Plan};
use std::alloc::{AllocError, Global};

/// The word, behind the gap.
pub fn put_word(out: &mut Vec<u8>, gap: &[u8], word: &[u8]) -> Result<(), AllocError>
    ensures { OnOk result (out.new.items ≡ out.old.items ++ (gap.now ++ word.now)) }
{
    out.extend_from_slice(gap)?;
    out.extend_from_slice(word)
}

/// How the value of the kind is written, behind the gap.
pub fn put_shown(
    out: &mut Vec<u8>,
    gap: &[u8],
    model: &Model,
    kind: ValueKind,
    value: i32,
) -> Result<(), AllocError>
    requires lawful { IsLawful model.now }
    requires value { IsValueOf model.now kind value }
    ensures { OnOk result ((word : List ℕ) × ((out.new.items ≡ out.old.items ++ (gap.now ++ word))
        × IsValueText model.now kind value word)) }
{
    match kind {
        ValueKind::Int => put_number(out, gap, value),
        ValueKind::Float => put_decimal(out, gap, value),
        ValueKind::Bool => put_word(out, gap, truth_text(value)),
        ValueKind::Enum(number) => put_word(out, gap, member_text(model, number, value)),
        ValueKind::Object => put_word(out, gap, object_text(model, value)),
    }
}

/// How the value of the kind is written, behind a space: a word of which a reader gets it.
pub fn put_value(
    out: &mut Vec<u8>,
    model: &Model,
    kind: ValueKind,
    value: i32,
) -> Result<(), AllocError>
    requires lawful { IsLawful model.now }
    requires value { IsValueOf model.now kind value }
    ensures { OnOk result (Adds IsPaused (OneValue model.now kind) value out.old.items out.new.items) }
{
    put_shown(out, b" ", model, kind, value)
}

// The place that is this value.
fn value_place(value: i32) -> usize
    requires { (place : ℕ) × (value ≡ pos place) }
    ensures { value ≡ pos result }
{
    value as usize
}

/// The name of a member of an enum.
pub fn member_text(model: &Model, number: u32, value: i32) -> &[u8]
    requires { IsMemberOf model.now number value }
    ensures { IsMemberNamed model.now number value result.now }
{
    let place = value_place(value);
    let found = &model.enums.as_slice()[number as usize];
    found.members.as_slice()[place].as_bytes()
}

/// The name of an object.
pub fn object_text(model: &Model, value: i32) -> &[u8]
    requires { (object : Object) × IsObject model.now value object }
    ensures { (object : Object) × (IsObject model.now value object × (object.name ≡ result.now)) }
{
    let place = value_place(value);
    model.objects.as_slice()[place].name.as_bytes()
}

/// The number, behind the gap.
pub fn put_number(out: &mut Vec<u8>, gap: &[u8], value: i32) -> Result<(), AllocError>
    ensures { OnOk result (out.new.items ≡ out.old.items ++ (gap.now ++ signed_decimal value)) }
{
    let mut buffer = Buffer::new();
    put_word(out, gap, buffer.format(value).as_bytes())
}

/// The decimal of which the value counts the thousandths, behind the gap.
pub fn put_decimal(out: &mut Vec<u8>, gap: &[u8], value: i32) -> Result<(), AllocError>
    ensures { OnOk result (out.new.items ≡ out.old.items ++ (gap.now ++ decimal_text value)) }
{
    put_word(out, gap, sign_text(value))?;
    put_thousandths(out, value.unsigned_abs())
}

// The sign with which the value is written.
fn sign_text(value: i32) -> &'static [u8]
    ensures { result.now ≡ (if int_lt value (pos 0) then codes "-" else []) }
{
    if value < 0 { b"-" } else { b"" }
}

// So many thousandths.
fn put_thousandths(out: &mut Vec<u8>, count: u32) -> Result<(), AllocError>
    ensures { OnOk result (out.new.items ≡ out.old.items ++ thousandths_text count) }
{
    let mut buffer = Buffer::new();
    out.extend_from_slice(buffer.format(count / 1000).as_bytes())?;
    let digits = [
        last_digit(count / 100),
        last_digit(count / 10),
        last_digit(count),
    ];
    put_word(out, b".", &digits)
}

// The last digit of the number.
fn last_digit(number: u32) -> u8
    ensures { result ≡ 48 + number % 10 }
{
    b'0' + (number % 10) as u8
}

/// How the truth is written.
pub fn truth_text(value: i32) -> &'static [u8]
    ensures zero { value ≡ pos 0 → result.now ≡ codes "false" }
    ensures one { value ≡ pos 1 → result.now ≡ codes "true" }
{
    if value == 0 { b"false" } else { b"true" }
}

/// The name, behind the gap.
pub fn put_name(
    out: &mut Vec<u8>,
    gap: &[u8],
    alloc: Global,
    name: &NameText,
) -> Result<(), AllocError>
    ensures { OnOk result (out.new.items ≡ out.old.items ++ (gap.now ++ name_spelling name.now)) }
{
    let bytes = write_name(alloc, name)?;
    put_word(out, gap, bytes.as_slice())
}

// The text that names the token.
fn token_text(model: &Model, token: &TokenName) -> Result<NameText, AllocError>
    requires { IsToken model.now token.now }
    ensures { IfOk result (λ text. NamesToken model.now text token.now) }
{
    let root = &model.problem.roots.as_slice()[token.root as usize];
    let TokenName { steps, .. } = token.copy()?;
    Ok(NameText {
        label: root.label.copy()?,
        steps,
        tail: Tail::None,
    })
}

/// The name of the token, behind the gap.
pub fn put_token(
    out: &mut Vec<u8>,
    gap: &[u8],
    alloc: Global,
    model: &Model,
    token: &TokenName,
) -> Result<(), AllocError>
    requires lawful { IsLawful model.now }
    requires there { IsToken model.now token.now }
    ensures { OnOk result ((word : List ℕ) × ((out.new.items ≡ out.old.items ++ (gap.now ++ word))
        × IsNameOf model.now (variables.Token token.now Start) word)) }
{
    let text = token_text(model, token)?;
    put_name(out, gap, alloc, &text)
}

/// The name of the variable, behind the gap.
pub fn put_variable(
    out: &mut Vec<u8>,
    gap: &[u8],
    alloc: Global,
    model: &Model,
    variable: &VarName,
) -> Result<(), AllocError>
    requires { (base : Base) × HasBase model.now variable.now base }
    ensures { OnOk result ((text : NameText) × ((out.new.items ≡ out.old.items ++ (gap.now ++ name_spelling text))
        × NamesVariable model.now text variable.now)) }
{
    let text = model.var_text(variable)?;
    put_name(out, gap, alloc, &text)
}

// The word with which a line begins.
fn keyword_text(keyword: Keyword) -> &'static [u8]
    ensures { result.now ≡ keyword_text keyword }
{
    match keyword {
        Keyword::Global => b"global",
        Keyword::Fact => b"fact",
        Keyword::Token => b"token",
        Keyword::Merged => b"merged",
        Keyword::Rejected => b"rejected",
        Keyword::Local => b"local",
        Keyword::End => b"end",
    }
}

// A new line up to its first word.
fn put_keyword(out: &mut Vec<u8>, keyword: Keyword) -> Result<(), AllocError>
    ensures { OnOk result (Adds IsPaused OneKeyword keyword out.old.items out.new.items) }
{
    put_word(out, b"\n", keyword_text(keyword))
}

/// The predicate, behind a space.
pub fn put_predicate(out: &mut Vec<u8>, model: &Model, number: u32) -> Result<(), AllocError>
    requires lawful { IsLawful model.now }
    requires there { number < length model.now.preds }
    ensures { OnOk result (Adds IsPaused (OnePredicate model.now number) tt out.old.items out.new.items) }
{
    let pred = &model.preds.as_slice()[number as usize];
    let class = &model.classes.as_slice()[pred.class as usize];
    put_word(out, b" ", class.name.as_bytes())?;
    put_word(out, b".", pred.name.as_bytes())
}

// The part of a token with its value.
fn put_part(
    out: &mut Vec<u8>,
    model: &Model,
    label: &[u8],
    kind: ValueKind,
    value: i32,
) -> Result<(), AllocError>
    requires lawful { IsLawful model.now }
    requires value { IsValueOf model.now kind value }
    requires label { IsUnbroken label.now }
    ensures { OnOk result (Adds IsPaused (OnePart model.now label.now kind) value out.old.items out.new.items) }
{
    put_word(out, b" ", label)?;
    put_value(out, model, kind, value)
}

// The parts that each token has.
fn put_first_parts(out: &mut Vec<u8>, model: &Model, values: &[i32]) -> Result<(), AllocError>
    requires lawful { IsLawful model.now }
    requires values { AllZip (IsValueOf model.now) (kinds.Int ∷ kinds.Int ∷ kinds.Int ∷ kinds.Object ∷ []) values.now }
    ensures { OnOk result (Adds IsPaused (FirstParts model.now) values.now out.old.items out.new.items) }
{
    put_part(out, model, b"start", ValueKind::Int, values[0])?;
    put_part(out, model, b"end", ValueKind::Int, values[1])?;
    put_part(out, model, b"duration", ValueKind::Int, values[2])?;
    put_part(out, model, b"object", ValueKind::Object, values[3])
}

// The parameters with their values.
fn put_parameters(
    out: &mut Vec<u8>,
    model: &Model,
    params: &[VarDecl],
    values: &[i32],
) -> Result<(), AllocError>
    requires lawful { IsLawful model.now }
    requires names { All IsName (names_of params.now) }
    requires values { AllZip (IsValueOf model.now) (map (λ variable. variable.kind) params.now) values.now }
    ensures { OnOk result (Adds EndsLine (LastParts model.now params.now) values.now out.old.items out.new.items) }
{
    for (number, variable) in params.iter().enumerate() {
        put_word(out, b" ", variable.name.as_bytes())?;
        put_value(out, model, variable.kind, values[number])?;
    }
    Ok(())
}

// The values of a token of the predicate of this number.
fn put_values(
    out: &mut Vec<u8>,
    model: &Model,
    number: u32,
    values: &[i32],
) -> Result<(), AllocError>
    requires lawful { IsLawful model.now }
    requires values { AreTokenValues model.now number values.now }
    ensures { OnOk result (Adds EndsLine (TokenValues model.now number) values.now out.old.items out.new.items) }
{
    let pred = &model.preds.as_slice()[number as usize];
    let (first, last) = values.split_at(4);
    put_first_parts(out, model, first)?;
    put_parameters(out, model, pred.params.as_slice(), last)
}

// The kind of a global of the model.
fn global_kind(model: &Model, number: u32) -> ValueKind
    requires { (variable : VarDecl) × IsGlobal model.now number variable }
    ensures { (variable : VarDecl) × (IsGlobal model.now number variable × (result ≡ variable.kind)) }
{
    let variable = &model.problem.globals.as_slice()[number as usize];
    variable.kind
}

// The name of a global of the model, behind a space.
fn put_global_name(
    out: &mut Vec<u8>,
    alloc: Global,
    model: &Model,
    number: u32,
) -> Result<(), AllocError>
    requires { (variable : VarDecl) × IsGlobal model.now number variable }
    ensures { OnOk result ((text : NameText) × ((out.new.items ≡ out.old.items ++ (codes " " ++ name_spelling text))
        × NamesVariable model.now text (variables.Global number))) }
{
    let name = VarName::Global(number);
    put_variable(out, b" ", alloc, model, &name)
}

// The line of a global of the model.
fn put_global(
    out: &mut Vec<u8>,
    alloc: Global,
    model: &Model,
    number: u32,
    value: i32,
) -> Result<(), AllocError>
    requires lawful { IsLawful model.now }
    requires value { (variable : VarDecl) × (IsGlobal model.now number variable × IsValueOf model.now variable.kind value) }
    ensures { OnOk result (AddsLine model.now (statements.Global number value) out.old.items out.new.items) }
{
    put_keyword(out, Keyword::Global)?;
    put_global_name(out, alloc, model, number)?;
    put_value(out, model, global_kind(model, number), value)
}

// The word with which the line of a token begins that takes place.
fn active_keyword(fact: bool) -> Keyword
    ensures { result ≡ (if fact then keywords.Fact else keywords.Token) }
{
    if fact { Keyword::Fact } else { Keyword::Token }
}

// The line of a token that takes place.
fn put_active(
    out: &mut Vec<u8>,
    alloc: Global,
    model: &Model,
    name: &TokenName,
    fact: bool,
    values: &[i32],
) -> Result<(), AllocError>
    requires lawful { IsLawful model.now }
    requires line { IsLineOf model.now (lines.Token name.now fact values.now) }
    ensures { OnOk result (AddsLine model.now (statements.Of (lines.Token name.now fact values.now)) out.old.items out.new.items) }
{
    put_keyword(out, active_keyword(fact))?;
    put_token(out, b" ", alloc, model, name)?;
    let pred = pred_of(model, name);
    put_predicate(out, model, pred)?;
    put_values(out, model, pred, values)
}

// The line of a token that is another one.
fn put_merged(
    out: &mut Vec<u8>,
    alloc: Global,
    model: &Model,
    name: &TokenName,
    target: &TokenName,
) -> Result<(), AllocError>
    requires lawful { IsLawful model.now }
    requires line { IsLineOf model.now (lines.Merged name.now target.now) }
    ensures { OnOk result (AddsLine model.now (statements.Of (lines.Merged name.now target.now)) out.old.items out.new.items) }
{
    put_keyword(out, Keyword::Merged)?;
    put_token(out, b" ", alloc, model, name)?;
    put_token(out, b" ", alloc, model, target)
}

// The line of a token that doesn't take place.
fn put_rejected(
    out: &mut Vec<u8>,
    alloc: Global,
    model: &Model,
    name: &TokenName,
) -> Result<(), AllocError>
    requires lawful { IsLawful model.now }
    requires line { IsLineOf model.now (lines.Rejected name.now) }
    ensures { OnOk result (AddsLine model.now (statements.Of (lines.Rejected name.now)) out.old.items out.new.items) }
{
    put_keyword(out, Keyword::Rejected)?;
    put_token(out, b" ", alloc, model, name)
}

// The line of a local.
fn put_local(
    out: &mut Vec<u8>,
    alloc: Global,
    model: &Model,
    name: &VarName,
    value: i32,
) -> Result<(), AllocError>
    requires lawful { IsLawful model.now }
    requires line { IsLineOf model.now (lines.Local name.now value) }
    ensures { OnOk result (AddsLine model.now (statements.Of (lines.Local name.now value)) out.old.items out.new.items) }
{
    put_keyword(out, Keyword::Local)?;
    put_variable(out, b" ", alloc, model, name)?;
    put_local_value(out, model, name, value)
}

// The value of a local, behind a space.
fn put_local_value(
    out: &mut Vec<u8>,
    model: &Model,
    name: &VarName,
    value: i32,
) -> Result<(), AllocError>
    requires lawful { IsLawful model.now }
    requires line { IsLocalValue model.now name.now value }
    ensures { OnOk result ((kind : ValueKind) × (IsLocalOfKind model.now kind name.now
        × Adds IsPaused (OneValue model.now kind) value out.old.items out.new.items)) }
{
    match name {
        VarName::Local {
            token,
            rule,
            number,
        } => {
            let kind = local_kind(model, token, *rule, *number);
            put_value(out, model, kind, value)
        }
        _ => unreachable!(),
    }
}

// The line.
fn put_line(out: &mut Vec<u8>, alloc: Global, model: &Model, line: &Line) -> Result<(), AllocError>
    requires lawful { IsLawful model.now }
    requires line { IsLineOf model.now line.now }
    ensures { OnOk result (AddsLine model.now (statements.Of line.now) out.old.items out.new.items) }
{
    match line {
        Line::Token { name, fact, values } => {
            put_active(out, alloc, model, name, *fact, values.as_slice())
        }
        Line::Merged { name, target } => put_merged(out, alloc, model, name, target),
        Line::Rejected { name } => put_rejected(out, alloc, model, name),
        Line::Local { name, value } => put_local(out, alloc, model, name, *value),
    }
}

// The lines of the globals.
fn put_globals(
    out: &mut Vec<u8>,
    alloc: Global,
    model: &Model,
    plan: &Plan,
) -> Result<(), AllocError>
    requires lawful { IsLawful model.now }
    requires plan { IsPlanOf model.now plan.now }
    ensures { OnOk result (AddsLines model.now [] (global_statements 0 plan.now.globals) out.old.items out.new.items) }
{
    for (number, value) in plan.globals.as_slice().iter().enumerate() {
        put_global(out, alloc, model, number as u32, *value)?;
    }
    Ok(())
}

// The lines of tokens and locals.
fn put_lines(out: &mut Vec<u8>, alloc: Global, model: &Model, plan: &Plan) -> Result<(), AllocError>
    requires lawful { IsLawful model.now }
    requires plan { IsPlanOf model.now plan.now }
    ensures { OnOk result (AddsLines model.now (global_statements 0 plan.now.globals)
        (map (λ line. statements.Of line) plan.now.lines) out.old.items out.new.items) }
{
    for line in plan.lines.as_slice() {
        put_line(out, alloc, model, line)?;
    }
    Ok(())
}

/// The text of the plan, which is one of the model.
pub fn write_plan(alloc: Global, model: &Model, plan: &Plan) -> Result<Bytes, AllocError>
    requires lawful { IsLawful model.now }
    requires plan { IsPlanOf model.now plan.now }
    ensures { IfOk result (IsPlanText model.now plan.now) }
{
    let mut out = Vec::from_slice(alloc, b"plan")?;
    put_globals(&mut out, alloc, model, plan)?;
    put_lines(&mut out, alloc, model, plan)?;
    put_keyword(&mut out, Keyword::End)?;
    out.push(b'\n')?;
    Ok(Bytes::from_vec(out))
}
