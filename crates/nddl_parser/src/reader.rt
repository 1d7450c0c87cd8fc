//! What reads one text.

use super::fault::TextFail;
use eu_name::sequence::Sequence;
use nddl_ast::declaration::Decl;
use std::alloc::Global;

/// What reads the text of one file. Files with their includes are read by `reading::read_all` over it.
pub trait TextReader {
    ghost use Rattle.std.specs.Prelude.{ℕ, ◌≤◌, List, Result, length};
    ghost use Rattle.nddl_ast.specs.declared.declaration.Decl.{Decl};
    ghost use Rattle.nddl_parser.specs.declared.fault.TextFail.{TextFail};
    ghost use Rattle.nddl_parser.specs.Limits.{most_bytes};
    ghost use Rattle.nddl_parser.specs.Outcomes.{ReadsText};

    /// The text has these declarations, or this is the first thing that is wrong in it.
    ghost reads: { Self → List ℕ → Result (List Decl) TextFail → Type 0 };

    /// Reads a text to its end.
    fn read(&self, alloc: Global, text: &[u8]) -> Result<Sequence<Decl>, TextFail>
        requires { length text.now ≤ most_bytes }
        ensures { ReadsText (reads self.now) text.now result };
}
