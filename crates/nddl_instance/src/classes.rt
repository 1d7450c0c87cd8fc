//! The classes of a model.

ghost use Rattle.std.specs.Prelude.{◌≡◌, IfOk};
ghost use Rattle.nddl_instance.specs.Modelled.{modelled_class, modelled_classes};

use super::variables::attribute_variables;
use eu_name::sequence::Sequence;
use model_core::class::Class;
use nddl_terms::Lexicon;
use nddl_terms::lexicon::as_number;
use std::alloc::{AllocError, Global};

// The class of this number.
fn modelled_class(
    alloc: Global,
    lexicon: &Lexicon,
    number: usize,
    class: &Class,
) -> Result<Class, AllocError>
    ensures { IfOk result (λ made. made ≡ modelled_class lexicon.now number class.now) }
{
    let name = class.name.copy()?;
    let fields = attribute_variables(alloc, lexicon.fields(as_number(number)?))?;
    Ok(Class {
        name,
        parent: class.parent,
        fields,
    })
}

/// The classes of a table, with what their fields may be once objects are made.
pub fn modelled_classes(
    alloc: Global,
    lexicon: &Lexicon,
    classes: &[Class],
) -> Result<Sequence<Class>, AllocError>
    ensures { IfOk result (λ made. made ≡ modelled_classes lexicon.now 0 classes.now) }
{
    let mut made = Sequence::new(alloc);
    for (number, class) in classes.iter().enumerate() {
        made.push(modelled_class(alloc, lexicon, number, class)?)?;
    }
    Ok(made)
}
