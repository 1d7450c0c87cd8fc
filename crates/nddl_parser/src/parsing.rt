//! A whole text as a tree.

ghost use Rattle.std.specs.Prelude.{◌≡◌, ◌≢◌, ◌<◌, ◌^◌, Ok, Err, IfOk, IfErr, length};
ghost use Rattle.nddl_lexer.specs.Reading.{Lexes};
ghost use Rattle.nddl_parser.specs.declared.parsing.ParseFault.TheVariants.{Memory};
ghost use Rattle.nddl_parser.specs.Derives.{IsParseOutcome, Parses};
ghost use Rattle.nddl_parser.specs.GrammarFaults.{parse_kind, parse_place};

use super::declarations::text;
use super::symbols::symbols_of;
use eu_name::sequence::Sequence;
use nddl_ast::declaration::Decl;
use nddl_ast::kind::TextKind;
use nddl_grammar::cursor::{Cursor, Stop};
use nddl_grammar::symbol::Symbol;
use nddl_lexer::kinds::Lexeme;
use std::alloc::{AllocError, Global};

/// Why a text has no tree, and at which byte.
#[derive(Clone, Copy, Debug, PartialEq, Eq)]
pub enum ParseFault {
    /// What comes before this place can begin a text, and with the lexeme here it can't. At the end of the text: it could
    /// go on, but may not end here.
    Syntax(u32),
    /// The block that begins here is nested deeper than 16.
    TooDeep(u32),
    /// There is no memory for the tree.
    Memory,
}

impl ParseFault {
    /// What kind of fault it is; none where there is no memory.
    pub fn kind(self) -> Option<TextKind>
        ensures { result ≡ parse_kind self }
    {
        match self {
            ParseFault::Syntax(_) => Some(TextKind::Syntax),
            ParseFault::TooDeep(_) => Some(TextKind::LimitNesting),
            ParseFault::Memory => None,
        }
    }

    /// The byte at which it is; none where there is no memory.
    pub fn at(self) -> Option<u32>
        ensures { result ≡ parse_place self }
    {
        match self {
            ParseFault::Syntax(at) | ParseFault::TooDeep(at) => Some(at),
            ParseFault::Memory => None,
        }
    }
}

impl From<AllocError> for ParseFault {
    ghost from_gives = { λ _ fault. fault ≡ Memory };

    fn from(_error: AllocError) -> ParseFault {
        ParseFault::Memory
    }
}

// The tree of the symbols; at the end of them the text has this length.
fn tree_of<'a>(
    alloc: Global,
    symbols: &'a [Symbol<'a>],
    end: u32,
) -> Result<Sequence<Decl>, ParseFault>
    ensures tree { IfOk result (λ tree. IsParseOutcome end symbols.now (Ok tree)) }
    ensures fault { IfErr result (λ fault. fault ≢ Memory → IsParseOutcome end symbols.now (Err fault)) }
{
    let mut cursor = Cursor::new(alloc, symbols);
    match text(&mut cursor) {
        Ok(tree) => match cursor.sort() {
            None => Ok(tree),
            Some(_) => Err(ParseFault::Syntax(cursor.place(end))),
        },
        Err(Stop::Stuck) => Err(ParseFault::Syntax(cursor.place(end))),
        Err(Stop::Deep) => Err(ParseFault::TooDeep(cursor.place(end))),
        Err(Stop::Memory) => Err(ParseFault::Memory),
    }
}

/// The tree of a text, from its lexemes.
pub fn parse(alloc: Global, text: &[u8], lexemes: &[Lexeme]) -> Result<Sequence<Decl>, ParseFault>
    requires short { length text.now < 2 ^ 32 }
    requires lexemes { Lexes text.now lexemes.now }
    ensures tree { IfOk result (λ tree. Parses text.now lexemes.now (Ok tree)) }
    ensures fault { IfErr result (λ fault. fault ≢ Memory → Parses text.now lexemes.now (Err fault)) }
{
    let symbols = symbols_of(alloc, text, lexemes)?;
    tree_of(alloc, &symbols, text.len() as u32)
}
