//! The words of a plan text.

ghost use Rattle.std.specs.Prelude.{◌≡◌, ◌≤◌, ◌-◌, ◌↔◌, ◌++◌, not, List, ℕ, [], length, IsTrue, MatchOption};
ghost use Rattle.std.specs.List.{prefix_len};
ghost use Rattle.plan_text.specs.Words.{is_gap, HasWord, HasNoWord, place_in};
ghost use Rattle.plan_text.specs.Found.{Exactly, FindsWords, rest_behind};

use super::fault::Wrong;

/// What of a text isn't read yet.
#[derive(Clone, Copy)]
pub struct Cursor<'a> {
    pub rest: &'a [u8],
}

// Whether the byte stands between words.
fn is_gap(byte: u8) -> bool
    ensures { result ≡ is_gap byte }
{
    byte == b' ' || byte == b'\n'
}

// How many bytes stand before the first gap.
fn word_len(text: &[u8]) -> usize
    ensures len { result ≡ prefix_len (λ byte. not (is_gap byte)) text.now }
    ensures within { result ≤ length text.now }
{
    text.iter().take_while(|byte| !is_gap(**byte)).count()
}

// How many gaps come first.
fn gap_len(text: &[u8]) -> usize
    ensures len { result ≡ prefix_len is_gap text.now }
    ensures within { result ≤ length text.now }
{
    text.iter().take_while(|byte| is_gap(**byte)).count()
}

// The word that the text begins with, and the rest.
fn first_word(text: &[u8]) -> Option<(&[u8], &[u8])>
    ensures { MatchOption result (HasNoWord [] text.now) (λ found. HasWord [] text.now found.0.now found.1.now) }
{
    let (word, rest) = text.split_at(word_len(text));
    if word.is_empty() {
        return None;
    }
    Some((word, rest))
}

/// The word right behind the gap, and the rest.
pub fn word_behind<'a>(gap: &[u8], text: &'a [u8]) -> Option<(&'a [u8], &'a [u8])>
    ensures { MatchOption result
        (HasNoWord gap.now text.now)
        (λ found. HasWord gap.now text.now found.0.now found.1.now) }
{
    match text.strip_prefix(gap) {
        Some(after) => first_word(after),
        None => None,
    }
}

/// Whether the word is this one.
pub fn is_word(word: &[u8], expected: &[u8]) -> bool
    ensures { IsTrue result ↔ (word.now ≡ expected.now) }
{
    word == expected
}

/// What stands behind this front of the word.
pub fn behind<'a>(word: &'a [u8], front: &[u8]) -> Option<&'a [u8]>
    ensures { MatchOption result
        ((rest : List ℕ) → word.now ≡ front.now ++ rest → ⊥)
        (λ after. word.now ≡ front.now ++ after.now) }
{
    word.strip_prefix(front)
}

impl<'a> Cursor<'a> {
    /// Goes behind the word that says this, and stays before one that is wrong.
    pub fn pass_word<X: Drop>(
        &mut self,
        rest: &'a [u8],
        judged: Result<X, Wrong>,
    ) -> Result<X, Wrong>
        ensures judged { result ≡ judged }
        ensures rest { self.new.rest.now ≡ rest_behind judged self.old.rest.now rest.now }
    {
        match judged {
            Ok(said) => {
                self.rest = rest;
                Ok(said)
            }
            Err(wrong) => Err(wrong),
        }
    }

    /// Just this word, right behind the gap.
    pub fn exactly(&mut self, gap: &[u8], expected: &[u8]) -> Result<(), Wrong>
        ensures { FindsWords (Exactly gap.now expected.now self.old.rest.now) result self.new.rest.now }
    {
        let Some((word, rest)) = word_behind(gap, self.rest) else {
            return Err(Wrong::Syntax);
        };
        if !is_word(word, expected) {
            return Err(Wrong::Syntax);
        }
        self.rest = rest;
        Ok(())
    }
}

/// The place in the text of the next word of this rest of it, or the text's length.
pub fn place_in(text: &[u8], rest: &[u8]) -> usize
    ensures place { result ≡ place_in text.now rest.now }
    ensures within { result ≤ length text.now }
{
    text.len().saturating_sub(rest.len() - gap_len(rest))
}
