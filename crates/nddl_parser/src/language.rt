//! Texts of the language.

ghost use Rattle.nddl_parser.specs.Language.{ReadsAs};

use crate::fault::TextFail;
use crate::parsing::parse;
use crate::reader::TextReader;
use eu_name::sequence::Sequence;
use nddl_ast::declaration::Decl;
use nddl_lexer::lexing::lex;
use std::alloc::Global;

/// Reads a text of the language: cuts it into lexemes to its end, and then makes the tree that they derive.
#[derive(Clone, Copy)]
pub struct Language;

impl TextReader for Language {
    ghost reads = { λ _. ReadsAs };

    fn read(&self, alloc: Global, text: &[u8]) -> Result<Sequence<Decl>, TextFail> {
        let lexemes = match lex(alloc, text) {
            Ok(lexemes) => lexemes,
            Err(fault) => return Err(TextFail::Lex(fault)),
        };
        match parse(alloc, text, lexemes.as_slice()) {
            Ok(tree) => return Ok(tree),
            Err(fault) => return Err(TextFail::Parse(fault)),
        }
    }
}
