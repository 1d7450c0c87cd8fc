//! The enums of a program.

ghost use Rattle.std.specs.Prelude.{◌≡◌, ◌++◌, ◌∷◌, [], IfOk, OnOk, map};
ghost use Rattle.nddl_types.specs.Classes.{enums_of};

use eu_name::sequence::Sequence;
use eu_name::text::Text;
use model_core::class::Enum;
use nddl_ast::declaration::Decl;
use nddl_ast::name::Name;
use std::alloc::{AllocError, Global};

/// The enums, one for each declaration, in their order.
pub fn enums_of(alloc: Global, decls: &[&Decl]) -> Result<Sequence<Enum>, AllocError>
    ensures { IfOk result (λ enums. enums ≡ enums_of (map (λ decl. decl.now) decls.now)) }
{
    let mut enums = Sequence::new(alloc);
    for decl in decls {
        push_enum(alloc, *decl, &mut enums)?;
    }
    Ok(enums)
}

// Puts the enum that the declaration is at the end, if it is one.
fn push_enum(alloc: Global, decl: &Decl, enums: &mut Sequence<Enum>) -> Result<(), AllocError>
    ensures { OnOk result (enums.new ≡ enums.old ++ enums_of (decl.now ∷ [])) }
{
    match decl {
        Decl::Enum { name, members, .. } => enums.push(Enum {
            name: name.text.copy()?,
            members: texts_of(alloc, members.as_slice())?,
        }),
        _ => Ok(()),
    }
}

fn texts_of(alloc: Global, names: &[Name]) -> Result<Sequence<Text>, AllocError>
    ensures { IfOk result (λ texts. texts ≡ map (λ name. name.text) names.now) }
{
    let mut texts = Sequence::new(alloc);
    for name in names {
        texts.push(name.text.copy()?)?;
    }
    Ok(texts)
}
