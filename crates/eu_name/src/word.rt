//! Words of the language, and which of them are names.

ghost use Rattle.std.specs.Prelude.{◌≡◌, ◌↔◌, All, Contains, IsTrue, codes, map};
ghost use Rattle.eu_name.specs.Word.{is_word_start, is_word_byte, reserved_word, reserved_of, reserved_words, IsWord, IsName};

/// The words that no file may declare, in the order of the language's description.
#[derive(Clone, Copy, Debug, PartialEq, Eq)]
pub enum Reserved {
    /// `class`
    Class,
    /// `predicate`
    Predicate,
    /// `enum`
    Enum,
    /// `typedef`
    Typedef,
    /// `extends`
    Extends,
    /// `new`
    New,
    /// `if`
    If,
    /// `else`
    Else,
    /// `foreach`
    Foreach,
    /// `in`
    In,
    /// `int`
    Int,
    /// `float`
    Float,
    /// `bool`
    Bool,
    /// `string`
    Str,
    /// `true`
    True,
    /// `false`
    False,
    /// `super`
    Super,
}

/// All of them.
const RESERVED: [Reserved; 17] = [
    Reserved::Class,
    Reserved::Predicate,
    Reserved::Enum,
    Reserved::Typedef,
    Reserved::Extends,
    Reserved::New,
    Reserved::If,
    Reserved::Else,
    Reserved::Foreach,
    Reserved::In,
    Reserved::Int,
    Reserved::Float,
    Reserved::Bool,
    Reserved::Str,
    Reserved::True,
    Reserved::False,
    Reserved::Super,
];

impl Reserved {
    /// How the word is spelled.
    pub fn word(self) -> &'static [u8]
        ensures { result.now ≡ reserved_word self }
    {
        match self {
            Reserved::Class => b"class",
            Reserved::Predicate => b"predicate",
            Reserved::Enum => b"enum",
            Reserved::Typedef => b"typedef",
            Reserved::Extends => b"extends",
            Reserved::New => b"new",
            Reserved::If => b"if",
            Reserved::Else => b"else",
            Reserved::Foreach => b"foreach",
            Reserved::In => b"in",
            Reserved::Int => b"int",
            Reserved::Float => b"float",
            Reserved::Bool => b"bool",
            Reserved::Str => b"string",
            Reserved::True => b"true",
            Reserved::False => b"false",
            Reserved::Super => b"super",
        }
    }
}

/// The reserved word that the bytes spell, if they spell one.
#[tactic(auto, unfolding(crate::specs::Word::reserved_of))]
pub fn reserved_of(bytes: &[u8]) -> Option<Reserved>
    ensures { result ≡ reserved_of bytes.now }
{
    RESERVED.iter().copied().find(|word| word.word() == bytes)
}

/// Whether a word can begin with the byte.
pub fn is_word_start(byte: u8) -> bool
    ensures { result ≡ is_word_start byte }
{
    byte.is_ascii_alphabetic() || byte == b'_'
}

/// Whether a word can go on with the byte.
pub fn is_word_byte(byte: u8) -> bool
    ensures { result ≡ is_word_byte byte }
{
    is_word_start(byte) || byte.is_ascii_digit()
}

/// Whether all the bytes are such that a word can go on with them.
pub fn are_word_bytes(bytes: &[u8]) -> bool
    ensures { IsTrue result ↔ All (λ byte. IsTrue (is_word_byte byte)) bytes.now }
{
    bytes.iter().all(|byte| is_word_byte(*byte))
}

/// Whether the bytes are `inf`, which is a number and no word.
pub fn is_infinity(bytes: &[u8]) -> bool
    ensures { IsTrue result ↔ (bytes.now ≡ codes "inf") }
{
    bytes == b"inf".as_slice()
}

/// Whether the bytes are a word, reserved or not.
pub fn is_word(bytes: &[u8]) -> bool
    ensures { IsTrue result ↔ IsWord bytes.now }
{
    if is_infinity(bytes) {
        return false;
    }
    match bytes.split_first() {
        Some((first, rest)) => is_word_start(*first) && are_word_bytes(rest),
        None => false,
    }
}

/// Whether the word is one of these.
pub fn is_among(word: &[u8], words: &[&[u8]]) -> bool
    ensures { IsTrue result ↔ Contains (map (λ other. other.now) words.now) word.now }
{
    for other in words {
        if *other == word {
            return true;
        }
    }
    false
}

/// Whether the language keeps the word for itself.
pub fn is_reserved(word: &[u8]) -> bool
    ensures { IsTrue result ↔ Contains reserved_words word.now }
{
    reserved_of(word).is_some()
}

/// Whether a file may declare something by this name.
pub fn is_name(bytes: &[u8]) -> bool
    ensures { IsTrue result ↔ IsName bytes.now }
{
    is_word(bytes) && !is_reserved(bytes)
}
