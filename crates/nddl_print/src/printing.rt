//! A whole tree in the canonical spelling.

ghost use Rattle.std.specs.Prelude.{◌≡◌, IfOk};
ghost use Rattle.nddl_print.specs.Canonical.{spelling_of};

use super::line::Lines;
use super::lists::Print;
use eu_name::bytes::Bytes;
use nddl_ast::declaration::Decl;
use std::alloc::{AllocError, Global};

/// The declarations in the canonical spelling: words with single spaces between them, and each declaration on a line of
/// its own. What can be left out is, a block has its braces, and of a number only the value is kept.
pub fn print(alloc: Global, decls: &[Decl]) -> Result<Bytes, AllocError>
    ensures { IfOk result (λ bytes. bytes ≡ spelling_of decls.now) }
{
    let mut lines = Lines::new(alloc);
    for decl in decls {
        decl.print(&mut lines)?;
        lines.end_line()?;
    }
    Ok(lines.into_bytes())
}
