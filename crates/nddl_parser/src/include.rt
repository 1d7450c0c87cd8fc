//! The includes of a file, and what is asked for through them.

ghost use Rattle.std.specs.Prelude.{◌≡◌, IfOk};
ghost use Rattle.nddl_parser.specs.Includes.{includes_of};

use eu_name::bytes::Bytes;
use eu_name::sequence::Sequence;
use eu_name::text::Text;
use nddl_ast::declaration::Decl;
use std::alloc::{AllocError, Global};

/// A file that is asked for, and where: at this byte of this file, which includes it. The file that is asked for first
/// is asked for at 0 of itself.
#[derive(Drop)]
pub struct Ask {
    pub name: Text,
    pub file: Text,
    pub at: u32,
}

/// An include, with what stands between its quotes.
#[derive(Drop)]
pub struct Include {
    pub name: Bytes,
    pub at: u32,
}

/// The includes among the declarations, in their order.
pub fn includes_in(alloc: Global, decls: &[Decl]) -> Result<Sequence<Include>, AllocError>
    ensures { IfOk result (λ includes. includes ≡ includes_of decls.now) }
{
    let mut includes = Sequence::new(alloc);
    for decl in decls {
        if let Decl::Include { at, file, .. } = decl {
            let name = file.copy()?;
            includes.push(Include { name, at: *at })?;
        }
    }
    Ok(includes)
}
