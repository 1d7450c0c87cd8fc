//! The words that commands begin with.

ghost use Rattle.std.specs.Prelude.{◌≡◌};
ghost use Rattle.script_lang.specs.Verbs.{verb_word, verb_of};

/// What the first word of a line says.
#[derive(Clone, Copy)]
pub enum Verb {
    /// `specify`
    Specify,
    /// `activate`
    Activate,
    /// `merge`
    Merge,
    /// `reject`
    Reject,
    /// `order`
    Order,
    /// `post`
    Post,
    /// `relate`
    Relate,
    /// `reset`, before one name or two
    Reset,
    /// `withdraw`
    Withdraw,
    /// `unrelate`
    Unrelate,
    /// `undo`
    Undo,
    /// `domain`
    Domain,
    /// `tokens`
    Tokens,
    /// `decisions`
    Decisions,
    /// `flaws`
    Flaws,
    /// `solve`
    Solve,
    /// `why`
    Why,
    /// `cycle`
    Cycle,
    /// `quit`
    Quit,
}

/// All of them.
const VERBS: [Verb; 19] = [
    Verb::Specify,
    Verb::Activate,
    Verb::Merge,
    Verb::Reject,
    Verb::Order,
    Verb::Post,
    Verb::Relate,
    Verb::Reset,
    Verb::Withdraw,
    Verb::Unrelate,
    Verb::Undo,
    Verb::Domain,
    Verb::Tokens,
    Verb::Decisions,
    Verb::Flaws,
    Verb::Solve,
    Verb::Why,
    Verb::Cycle,
    Verb::Quit,
];

impl Verb {
    /// How the verb is written.
    pub fn word(self) -> &'static [u8]
        ensures { result.now ≡ verb_word self }
    {
        match self {
            Verb::Specify => b"specify",
            Verb::Activate => b"activate",
            Verb::Merge => b"merge",
            Verb::Reject => b"reject",
            Verb::Order => b"order",
            Verb::Post => b"post",
            Verb::Relate => b"relate",
            Verb::Reset => b"reset",
            Verb::Withdraw => b"withdraw",
            Verb::Unrelate => b"unrelate",
            Verb::Undo => b"undo",
            Verb::Domain => b"domain",
            Verb::Tokens => b"tokens",
            Verb::Decisions => b"decisions",
            Verb::Flaws => b"flaws",
            Verb::Solve => b"solve",
            Verb::Why => b"why",
            Verb::Cycle => b"cycle",
            Verb::Quit => b"quit",
        }
    }
}

/// The verb that is written so, if there is one.
#[tactic(auto, unfolding(crate::specs::Verbs::verb_of))]
pub fn verb_of(word: &[u8]) -> Option<Verb>
    ensures { result ≡ verb_of word.now }
{
    VERBS.iter().copied().find(|verb| verb.word() == word)
}
