//! Of which form names are.

ghost use Rattle.std.specs.Prelude.{◌≡◌, ◌≤◌, ◌↔◌, ◌++◌, All, Contains, IfOk, IsTrue, MatchOption, codes, false, length, map, not};
ghost use Rattle.std.specs.List.{prefix_len};
ghost use Rattle.model_core.specs.Naming.{IsGlobalName, IsObjectName, IsParameterName, builtin_names, token_part_words, is_point, IsPath};
ghost use Rattle.model_rules.specs.Forms.{HasForm};

use super::named::Named;
use eu_name::is_name;
use eu_name::word::is_among;
use std::alloc::{AllocError, Global};

/// What is asked of names.
#[derive(Clone, Copy)]
pub enum Form {
    /// That they are names.
    Plain,
    /// That the language doesn't give them to classes of its own.
    Own,
    /// That parameters may have them.
    Parameter,
}

// Whether the language gives the name to a class of its own.
fn is_builtin(name: &[u8]) -> bool
    ensures { IsTrue result ↔ Contains builtin_names name.now }
{
    let words = [
        b"Object".as_slice(),
        b"Timeline".as_slice(),
        b"Reusable".as_slice(),
        b"Reservoir".as_slice(),
        b"PlannerConfig".as_slice(),
    ];
    is_among(name, &words)
}

// What stands before the first point, and what behind it.
fn cut_at_point(text: &[u8]) -> Option<(&[u8], &[u8])>
    ensures { MatchOption result
        (All (λ byte. is_point byte ≡ false) text.now)
        (λ cut. All (λ byte. is_point byte ≡ false) cut.0.now × (text.now ≡ cut.0.now ++ (codes "." ++ cut.1.now))) }
{
    let (name, back) = text.split_at(point_place(text));
    match back.split_first() {
        Some((_point, after)) => Some((name, after)),
        None => None,
    }
}

// How many bytes stand before the first point.
fn point_place(text: &[u8]) -> usize
    ensures len { result ≡ prefix_len (λ byte. not (is_point byte)) text.now }
    ensures within { result ≤ length text.now }
{
    text.iter().take_while(|byte| **byte != b'.').count()
}

// Whether the text is names with single points between them.
fn is_path(text: &[u8]) -> bool
    ensures { IsTrue result ↔ IsPath text.now }
{
    let mut rest = text;
    while let Some((name, after)) = cut_at_point(rest) {
        if !is_name(name) {
            return false;
        }
        rest = after;
    }
    is_name(rest)
}

/// Whether an object may have the name.
pub fn is_object_name(name: &[u8]) -> bool
    ensures { IsTrue result ↔ IsObjectName name.now }
{
    is_path(name)
}

// Whether each token has a part of this name.
fn is_part_word(name: &[u8]) -> bool
    ensures { IsTrue result ↔ Contains token_part_words name.now }
{
    let words = [
        b"start".as_slice(),
        b"end".as_slice(),
        b"duration".as_slice(),
        b"object".as_slice(),
    ];
    is_among(name, &words)
}

// Whether a parameter may have the name.
fn is_parameter_name(name: &[u8]) -> bool
    ensures { IsTrue result ↔ IsParameterName name.now }
{
    is_name(name) && !is_part_word(name)
}

// Whether the name is of the form.
fn has_form(form: Form, name: &[u8]) -> bool
    ensures { IsTrue result ↔ HasForm form name.now }
{
    match form {
        Form::Plain => is_name(name),
        Form::Own => !is_builtin(name),
        Form::Parameter => is_parameter_name(name),
    }
}

/// Whether the names of the items are all of the form.
pub fn have_form<T: Named>(form: Form, items: &[T]) -> bool
    ensures { IsTrue result ↔ All (HasForm form) (map T.named items.now) }
{
    for item in items {
        if !has_form(form, item.name().as_bytes()) {
            return false;
        }
    }
    true
}

/// Whether the global of this number may have the name.
pub fn is_global_name(alloc: Global, number: usize, name: &[u8]) -> Result<bool, AllocError>
    ensures { IfOk result (λ answer. IsTrue answer ↔ IsGlobalName number name.now) }
{
    if is_name(name) {
        return Ok(true);
    }
    let plain = format!(in alloc; "!{number}")?;
    Ok(plain.as_bytes() == name)
}
