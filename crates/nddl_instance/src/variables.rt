//! Fields and parameters as variables.

ghost use Rattle.std.specs.Prelude.{◌≡◌, IfOk};
ghost use Rattle.nddl_instance.specs.Modelled.{attribute_variable, attribute_variables};

use eu_name::sequence::Sequence;
use model_core::variable::VarDecl;
use nddl_terms::lexicon::{Attribute, copy_base};
use std::alloc::{AllocError, Global};

// A field or a parameter as a variable.
fn attribute_variable(attribute: &Attribute) -> Result<VarDecl, AllocError>
    ensures { IfOk result (λ variable. variable ≡ attribute_variable attribute.now) }
{
    let name = attribute.name.copy()?;
    let base = copy_base(&attribute.shape.base)?;
    Ok(VarDecl {
        name,
        kind: attribute.shape.kind,
        base,
    })
}

/// Each of them as a variable.
pub fn attribute_variables(
    alloc: Global,
    attributes: &[Attribute],
) -> Result<Sequence<VarDecl>, AllocError>
    ensures { IfOk result (λ variables. variables ≡ attribute_variables attributes.now) }
{
    let mut variables = Sequence::new(alloc);
    for attribute in attributes {
        variables.push(attribute_variable(attribute)?)?;
    }
    Ok(variables)
}
