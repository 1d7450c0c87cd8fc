//! The numbers that bound a search.

ghost use Rattle.std.specs.Prelude.{◌≡◌, ◌↔◌, ◌<◌, ◌≤◌, ◌^◌, ℕ, IsTrue, Some, MatchOption};
ghost use Rattle.std.specs.Fmt.{decimal};
ghost use Rattle.script_lang.specs.Words.{words_of};
ghost use Rattle.script_lang.specs.Operands.{AreBounds};

use crate::words::two_words;
use itoa::Buffer;

/// The most visits that a search may be given.
const MOST_VISITS: u32 = 1_000_000;

/// The most active tokens that a search may be given.
const MOST_ACTIVE: u32 = 512;

// The number that `parse` finds in the word: that of which the word is the text, if it is one's.
fn parsed(word: &[u8]) -> Option<u32>
    ensures { (number : ℕ) → number < 2 ^ 32 → word.now ≡ decimal number → result ≡ Some number }
{
    match std::str::from_utf8(word) {
        Ok(text) => text.parse::<u32>().ok(),
        Err(_) => None,
    }
}

// Whether the word is the text of the number.
fn is_text_of(number: u32, word: &[u8]) -> bool
    ensures { IsTrue result ↔ (word.now ≡ decimal number) }
{
    let mut buffer = Buffer::new();
    word == buffer.format(number).as_bytes()
}

// The number from the least to the most that the word is, in digits without leading zeros.
fn number_within(word: &[u8], least: u32, most: u32) -> Option<u32>
    ensures { MatchOption result
        ((number : ℕ) → least ≤ number → number ≤ most → word.now ≡ decimal number → ⊥)
        (λ number. (least ≤ number) × (number ≤ most) × (word.now ≡ decimal number)) }
{
    match parsed(word) {
        Some(number) if least <= number && number <= most && is_text_of(number, word) => Some(
            number,
        ),
        _ => None,
    }
}

/// The visits and the active tokens that bound a search, where the words are these two numbers.
pub fn bounds(rest: &[u8]) -> Option<(u32, u32)>
    ensures { MatchOption result
        ((steps tokens : ℕ) → AreBounds (words_of rest.now) (steps, tokens) → ⊥)
        (λ bounds. AreBounds (words_of rest.now) bounds) }
{
    let (steps, tokens) = two_words(rest)?;
    let steps = number_within(steps, 1, MOST_VISITS)?;
    let tokens = number_within(tokens, 0, MOST_ACTIVE)?;
    Some((steps, tokens))
}
