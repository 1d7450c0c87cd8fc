//! Numbers of the command line.

ghost use Rattle.std.specs.Prelude.{MatchOption};
ghost use Rattle.run_words.specs.Requests.{IsNumber, IsNoNumber, AreSteps, AreNoSteps, AreTokens, AreNoTokens};

/// How many tokens a search may activate where the words don't say.
const TOKENS: u32 = 512;

/// Value of one to seven digits that lies within these bounds.
pub fn number_within(text: &str, least: u32, most: u32) -> Option<u32>
    ensures { MatchOption result (IsNoNumber least most text.now) (λ number. IsNumber least most text.now number) }
{
    let bytes = text.as_bytes();
    if bytes.len() > 7 || bytes.first() == Some(&b'+') {
        return None;
    }
    match text.parse::<u32>() {
        Ok(number) if least <= number && number <= most => Some(number),
        _ => None,
    }
}

/// Number of steps that a text gives, or that there is no text.
pub fn steps_of(text: Option<&str>) -> Option<Option<u32>>
    ensures { MatchOption result (AreNoSteps text.entry) (AreSteps text.entry) }
{
    match text {
        None => Some(None),
        Some(text) => match number_within(text, 1, 1_000_000) {
            None => None,
            Some(number) => Some(Some(number)),
        },
    }
}

/// Number of tokens that a text gives, and 512 without one.
pub fn tokens_of(text: Option<&str>) -> Option<u32>
    ensures { MatchOption result (AreNoTokens text.entry) (AreTokens text.entry) }
{
    match text {
        None => Some(TOKENS),
        Some(text) => number_within(text, 0, TOKENS),
    }
}
