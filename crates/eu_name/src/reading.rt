//! Reads names from their front to their end: a label, steps and a tail, or `!` and a number.

ghost use Rattle.std.specs.Prelude.{◌≡◌, ◌<◌, ◌≤◌, ◌↔◌, ℕ, List, [], All, IfOk, IfSome, IfNone, IsTrue, MatchOption};
ghost use Rattle.std.specs.Prelude.{length, slice_index};
ghost use Rattle.std.specs.Char.{is_ascii_digit};
ghost use Rattle.std.specs.Fmt.{decimal};
ghost use Rattle.std.specs.List.{prefix_len};
ghost use Rattle.eu_name.specs.Word.{is_word_byte};
ghost use Rattle.eu_name.specs.Spelling.{IsNumbered, Reads};
ghost use Rattle.eu_name.specs.Readers.{ReadsEnding, ReadsTail, HasNumber, HasStep, HasSteps, IsEnding};
ghost use Rattle.eu_name.specs.declared.name_text.Tail.TheVariants.{Local};

use super::name::Step;
use super::name_text::{NameFault, NameText, Tail};
use super::sequence::Sequence;
use super::text::Text;
use super::word::{is_name, is_word_byte};
use std::alloc::{AllocError, Global};
use std::str;

/// The digit zero.
const ZERO: u8 = b'0';

/// How many digits the text begins with.
fn digits_len(text: &[u8]) -> usize
    ensures len { result ≡ prefix_len is_ascii_digit text.now }
    ensures within { result ≤ length text.now }
{
    text.iter().take_while(|byte| byte.is_ascii_digit()).count()
}

/// How many bytes the text begins with that can go on a word.
fn run_len(text: &[u8]) -> usize
    ensures len { result ≡ prefix_len is_word_byte text.now }
    ensures within { result ≤ length text.now }
{
    text.iter().take_while(|byte| is_word_byte(**byte)).count()
}

/// Whether a zero stands before other digits.
fn has_leading_zero(digits: &[u8]) -> bool
    ensures { IsTrue result ↔ ((1 < length digits.now) × (slice_index digits.now 0 ≡ ZERO)) }
{
    digits.len() > 1 && digits[0] == ZERO
}

/// The number that digits write, if it is below 65,536 and has no leading zero.
fn number(digits: &[u8]) -> Option<u16>
    requires { All (λ byte. IsTrue (is_ascii_digit byte)) digits.now }
    ensures some { IfSome result (λ number. (number < 65536) × (digits.now ≡ decimal number)) }
    ensures none { IfNone result ((number : ℕ) → number < 65536 → digits.now ≡ decimal number → ⊥) }
{
    if has_leading_zero(digits) {
        return None;
    }
    match str::from_utf8(digits) {
        Ok(text) => match text.parse() {
            Ok(number) => Some(number),
            Err(_) => None,
        },
        Err(_) => None,
    }
}

/// The number after the mark that the text begins with, and the rest.
fn marked_number(text: &[u8], mark: u8) -> Option<(u16, &[u8])>
    ensures { MatchOption result
        ((number : ℕ) (rest : List ℕ) → HasNumber mark text.now number rest → ⊥)
        (λ found. HasNumber mark text.now found.0 found.1.now) }
{
    let (first, after) = text.split_first()?;
    if *first != mark {
        return None;
    }
    let (digits, rest) = after.split_at(digits_len(after));
    Some((number(digits)?, rest))
}

/// The step that the text begins with, and the rest.
fn next_step(text: &[u8]) -> Option<(Step, &[u8])>
    ensures { MatchOption result
        ((step : Step) (rest : List ℕ) → HasStep text.now step rest → ⊥)
        (λ found. HasStep text.now found.0 found.1.now) }
{
    let (rule, rest) = marked_number(text, b'/')?;
    let (slot, rest) = marked_number(rest, b':')?;
    Some((Step { rule, slot }, rest))
}

/// Whether the text is `!` and a number.
fn is_numbered(text: &[u8]) -> bool
    ensures { IsTrue result ↔ IsNumbered text.now }
{
    match marked_number(text, b'!') {
        Some((_, rest)) => rest.is_empty(),
        None => false,
    }
}

/// A text of these bytes, which are all ASCII.
fn text_of(alloc: Global, bytes: &[u8]) -> Result<Text, AllocError>
    requires { All (λ byte. byte < 128) bytes.now }
    ensures { IfOk result (λ text. text ≡ bytes.now) }
{
    match str::from_utf8(bytes) {
        Ok(characters) => Text::from_str(alloc, characters),
        Err(_) => unreachable!(),
    }
}

/// The local variable that the text ends a name with.
fn read_local(text: &[u8]) -> Option<Tail>
    ensures { MatchOption result
        ((rule number : ℕ) → IsEnding text.now [] (Local rule number) → ⊥)
        (IsEnding text.now []) }
{
    let (rule, rest) = marked_number(text, b'/')?;
    let (number, rest) = marked_number(rest, b'!')?;
    if rest.is_empty() {
        Some(Tail::Local { rule, number })
    } else {
        None
    }
}

/// The tail that the text is.
fn read_tail(alloc: Global, text: &[u8]) -> Result<Tail, NameFault>
    ensures { ReadsTail text.now result }
{
    let Some((mark, part)) = text.split_first() else {
        return Ok(Tail::None);
    };
    if *mark != b'.' {
        return read_local(text).ok_or(NameFault::Syntax);
    }
    if !is_name(part) {
        return Err(NameFault::Syntax);
    }
    Ok(Tail::Part(text_of(alloc, part)?))
}

/// What follows the steps that the text begins with.
fn after_steps(text: &[u8]) -> &[u8]
    ensures { (steps : List Step) × HasSteps text.now steps result.now }
{
    let mut rest = text;
    while let Some((_, after)) = next_step(rest) {
        rest = after;
    }
    rest
}

/// The steps that the text begins with.
fn steps_of(alloc: Global, text: &[u8]) -> Result<Sequence<Step>, AllocError>
    ensures { IfOk result (λ steps. (rest : List ℕ) × HasSteps text.now steps rest) }
{
    let mut steps = Sequence::new(alloc);
    let mut rest = text;
    while let Some((step, after)) = next_step(rest) {
        steps.push(step)?;
        rest = after;
    }
    Ok(steps)
}

/// The steps and the tail that the text is. The tail comes first, so that what ends with none takes no memory.
fn read_ending(alloc: Global, text: &[u8]) -> Result<(Sequence<Step>, Tail), NameFault>
    ensures { ReadsEnding text.now result }
{
    let tail = read_tail(alloc, after_steps(text))?;
    let steps = steps_of(alloc, text)?;
    Ok((steps, tail))
}

/// The name that the text spells, as a whole. Which names there are is for the model to say. A text that spells
/// none takes no memory.
pub fn read_name(alloc: Global, text: &[u8]) -> Result<NameText, NameFault>
    ensures { Reads text.now result }
{
    if is_numbered(text) {
        return Ok(NameText {
            label: text_of(alloc, text)?,
            steps: Sequence::new(alloc),
            tail: Tail::None,
        });
    }
    let (label, ending) = text.split_at(run_len(text));
    if !is_name(label) {
        return Err(NameFault::Syntax);
    }
    let (steps, tail) = read_ending(alloc, ending)?;
    let label = text_of(alloc, label)?;
    Ok(NameText { label, steps, tail })
}
