//! The symbols of lexemes: reserved words are told from names, and numbers have their values.

ghost use Rattle.std.specs.Prelude.{◌≡◌, ◌++◌, ◌∷◌, [], Some, IfOk};
ghost use Rattle.eu_name.specs.Word.{reserved_of};
ghost use Rattle.nddl_lexer.specs.Spelling.{IsSpelled, IsInRange, IsString};
ghost use Rattle.nddl_lexer.specs.Reading.{AreLexemesOf, IsLexemeOf};
ghost use Rattle.nddl_parser.specs.Symbols.{word_sort, sort_of, KeepsBytes, HasValue, IsSymbolOf, AreSymbols};

use eu_name::word::reserved_of;
use nddl_grammar::sort::Sort;
use nddl_grammar::symbol::Symbol;
use nddl_lexer::kinds::{LexKind, Lexeme};
use nddl_lexer::numbers::{decimal_value, number_value};
use std::alloc::{AllocError, Global};

// The sort of a word: a name unless it is reserved.
fn word_sort(bytes: &[u8]) -> Sort
    ensures { result ≡ word_sort (reserved_of bytes.now) }
{
    match reserved_of(bytes) {
        Some(word) => Sort::Word(word),
        None => Sort::Name,
    }
}

fn sort_of(kind: LexKind, bytes: &[u8]) -> Sort
    ensures { result ≡ sort_of kind bytes.now }
{
    match kind {
        LexKind::Word => word_sort(bytes),
        LexKind::Number => Sort::Number,
        LexKind::Decimal => Sort::Decimal,
        LexKind::Str => Sort::Quoted,
        LexKind::Include => Sort::Include,
        LexKind::BraceOpen => Sort::BraceOpen,
        LexKind::BraceClose => Sort::BraceClose,
        LexKind::ParenOpen => Sort::ParenOpen,
        LexKind::ParenClose => Sort::ParenClose,
        LexKind::BracketOpen => Sort::BracketOpen,
        LexKind::BracketClose => Sort::BracketClose,
        LexKind::Semicolon => Sort::Semicolon,
        LexKind::Comma => Sort::Comma,
        LexKind::Point => Sort::Point,
        LexKind::Assign => Sort::Assign,
        LexKind::Equal => Sort::Equal,
        LexKind::NotEqual => Sort::NotEqual,
        LexKind::DoubleColon => Sort::DoubleColon,
    }
}

// The value of a number, and of a decimal in thousandths; 0 of all else.
fn value_of(kind: LexKind, bytes: &[u8]) -> i32
    requires { IsInRange (Some kind) bytes.now }
    ensures { HasValue kind bytes.now result }
{
    match kind {
        LexKind::Number => match number_value(bytes) {
            Some(value) => value,
            None => unreachable!(),
        },
        LexKind::Decimal => match decimal_value(bytes) {
            Some(value) => value,
            None => unreachable!(),
        },
        _ => 0,
    }
}

// The bytes, of a string without its quotes.
fn kept(kind: LexKind, bytes: &[u8]) -> &[u8]
    requires { IsSpelled kind bytes.now }
    ensures { KeepsBytes kind bytes.now result.now }
{
    match kind {
        LexKind::Str => inside(bytes),
        _ => bytes,
    }
}

// What stands between the quotes.
fn inside(bytes: &[u8]) -> &[u8]
    requires { IsString bytes.now }
    ensures { bytes.now ≡ 34 ∷ (result.now ++ 34 ∷ []) }
{
    &bytes[1..bytes.len() - 1]
}

// The symbol that a lexeme is.
fn symbol_of<'a>(text: &'a [u8], lexeme: &Lexeme) -> Symbol<'a>
    requires { IsLexemeOf text.now lexeme.now }
    ensures { IsSymbolOf text.now lexeme.now result }
{
    let bytes = lexeme.bytes(text);
    let sort = sort_of(lexeme.kind, bytes);
    let value = value_of(lexeme.kind, bytes);
    Symbol::new(sort, kept(lexeme.kind, bytes), value, lexeme.at)
}

/// The symbols of the lexemes of a text, in order.
pub fn symbols_of<'a>(
    alloc: Global,
    text: &'a [u8],
    lexemes: &[Lexeme],
) -> Result<Vec<Symbol<'a>>, AllocError>
    requires { AreLexemesOf text.now 0 lexemes.now }
    ensures { IfOk result (λ symbols. AreSymbols text.now lexemes.now symbols.items) }
{
    let mut symbols = Vec::new(alloc);
    for lexeme in lexemes {
        let symbol = symbol_of(text, lexeme);
        symbols.push(symbol)?;
    }
    Ok(symbols)
}
