//! Reads what stands before the lines, and behind them.

ghost use Rattle.std.specs.Prelude.{◌↔◌, ◌≡◌, IsTrue};
ghost use Rattle.plan_text.specs.Found.{FindsWords, Judges};
ghost use Rattle.plan_text.specs.PlanTexts.{opening_text, IsNoOpening, IsCount, IsNoCount, Opening, TextEnding};
ghost use Rattle.plan_core.specs.Openings.{OneOpening, OneCount};

use plan_text::fault::Wrong;
use plan_text::words::{Cursor, is_word, word_behind};

// What the word says at the front of a text: whether it is `found`, and not `plan`.
fn judge_opening(word: &[u8]) -> Result<bool, Wrong>
    ensures { Judges (λ counted word. word ≡ opening_text counted) IsNoOpening word.now result }
{
    if is_word(word, b"found") {
        return Ok(true);
    }
    if is_word(word, b"plan") {
        return Ok(false);
    }
    Err(Wrong::Syntax)
}

fn one_opening(cursor: &mut Cursor<'_>) -> Result<bool, Wrong>
    ensures { FindsWords (OneOpening cursor.old.rest.now) result cursor.new.rest.now }
{
    let Some((word, rest)) = word_behind(b"", cursor.rest) else {
        return Err(Wrong::Syntax);
    };
    cursor.pass_word(rest, judge_opening(word))
}

// Whether the word is one to seven digits.
fn is_count(word: &[u8]) -> bool
    ensures { IsTrue result ↔ IsCount word.now }
{
    !word.is_empty() && (word.len() <= 7 && word.iter().all(|byte| byte.is_ascii_digit()))
}

fn judge_count(word: &[u8]) -> Result<(), Wrong>
    ensures { Judges (λ said word. IsCount word) IsNoCount word.now result }
{
    if is_count(word) {
        Ok(())
    } else {
        Err(Wrong::Syntax)
    }
}

// How many lists a search visited.
fn one_count(cursor: &mut Cursor<'_>) -> Result<(), Wrong>
    ensures { FindsWords (OneCount cursor.old.rest.now) result cursor.new.rest.now }
{
    let Some((word, rest)) = word_behind(b" ", cursor.rest) else {
        return Err(Wrong::Syntax);
    };
    cursor.pass_word(rest, judge_count(word))
}

/// `plan`, with or without a line before it.
pub fn opening(cursor: &mut Cursor<'_>) -> Result<(), Wrong>
    ensures { FindsWords (Opening cursor.old.rest.now) result cursor.new.rest.now }
{
    if !one_opening(cursor)? {
        return Ok(());
    }
    one_count(cursor)?;
    cursor.exactly(b"\n", b"plan")
}

/// The end of the text.
pub fn text_ending(cursor: &Cursor<'_>) -> Result<(), Wrong>
    ensures { FindsWords (TextEnding cursor.now.rest.now) result cursor.now.rest.now }
{
    if cursor.rest.is_empty() || is_word(cursor.rest, b"\n") {
        Ok(())
    } else {
        Err(Wrong::Syntax)
    }
}
