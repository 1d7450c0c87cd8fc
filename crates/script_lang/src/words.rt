//! The words of a line.

ghost use Rattle.std.specs.Prelude.{◌≡◌, ℕ, not, ◌∷◌, [], List, IfSome, IfNone};
ghost use Rattle.std.specs.List.{prefix_len};
ghost use Rattle.script_lang.specs.Words.{is_separator, words_of};

/// Whether the byte separates words.
pub fn is_separator(byte: u8) -> bool
    ensures { result ≡ is_separator byte }
{
    byte == b' ' || byte == b'\t' || byte == b'\r'
}

/// How many blanks stand at the front.
fn blank_count(line: &[u8]) -> usize
    ensures { result ≡ prefix_len is_separator line.now }
{
    line.iter().take_while(|byte| is_separator(**byte)).count()
}

/// How many bytes stand before the first blank.
fn word_length(line: &[u8]) -> usize
    ensures { result ≡ prefix_len (λ byte. not (is_separator byte)) line.now }
{
    line.iter().take_while(|byte| !is_separator(**byte)).count()
}

/// The first word, and what follows it.
pub fn next_word(line: &[u8]) -> Option<(&[u8], &[u8])>
    ensures none { IfNone result (words_of line.now ≡ []) }
    ensures some { IfSome result (λ parts. words_of line.now ≡ parts.0.now ∷ words_of parts.1.now) }
{
    let (_, begun) = line.split_at(blank_count(line));
    if begun.is_empty() {
        return None;
    }
    Some(begun.split_at(word_length(begun)))
}

/// The word, where there is one and no other.
pub fn only_word(line: &[u8]) -> Option<&[u8]>
    ensures none { IfNone result ((word : List ℕ) → words_of line.now ≡ word ∷ [] → ⊥) }
    ensures some { IfSome result (λ word. words_of line.now ≡ word.now ∷ []) }
{
    let (word, rest) = next_word(line)?;
    match next_word(rest) {
        Some(_) => None,
        None => Some(word),
    }
}

/// The two words, where there are two and no others.
pub fn two_words(line: &[u8]) -> Option<(&[u8], &[u8])>
    ensures none { IfNone result ((first second : List ℕ) → words_of line.now ≡ first ∷ second ∷ [] → ⊥) }
    ensures some { IfSome result (λ words. words_of line.now ≡ words.0.now ∷ words.1.now ∷ []) }
{
    let (first, rest) = next_word(line)?;
    let second = only_word(rest)?;
    Some((first, second))
}
