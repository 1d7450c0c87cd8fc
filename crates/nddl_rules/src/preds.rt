//! Predicates by their names.

ghost use Rattle.std.specs.Prelude.{◌≡◌, ◌++◌, [], IfOk};
ghost use Rattle.model_core.specs.Naming.{full_name};
ghost use Rattle.nddl_rules.specs.Written.{class_word, inherited_pred, noted_preds, pred_above, preds_above};

use eu_index::NameIndex;
use eu_name::text::Text;
use model_core::class::{Class, Pred};
use std::alloc::{AllocError, Global};

/// The name of a predicate with that of its class before it.
pub fn full_name(alloc: Global, class: &str, predicate: &Text) -> Result<Text, AllocError>
    ensures { IfOk result (λ name. name ≡ full_name class.now predicate.now) }
{
    let mut name = String::from_str(alloc, class)?;
    name.push_str(".")?;
    name.push_str(predicate.as_str())?;
    Ok(Text::from_string(name))
}

// The name of the class of this number.
fn class_word(classes: &[Class], number: u32) -> &str
    ensures { result.now ≡ class_word classes.now number }
{
    match classes.get(number as usize) {
        Some(class) => class.name.as_str(),
        None => "",
    }
}

/// The numbers of the predicates by their full names.
pub fn noted_preds(
    alloc: Global,
    classes: &[Class],
    preds: &[Pred],
) -> Result<NameIndex, AllocError>
    ensures { IfOk result (λ noted. noted ≡ noted_preds classes.now [] 0 preds.now) }
{
    let mut noted = NameIndex::new(alloc);
    for (number, pred) in preds.iter().enumerate() {
        let name = full_name(alloc, class_word(classes, pred.class), &pred.name)?;
        let _ = noted.note(&name, number)?;
    }
    Ok(noted)
}

/// Of each predicate the one that it is inherited from.
pub fn preds_above(
    alloc: Global,
    classes: &[Class],
    noted: &NameIndex,
    preds: &[Pred],
) -> Result<Vec<Option<usize>>, AllocError>
    ensures { IfOk result (λ above. above.items ≡ preds_above classes.now noted.now preds.now) }
{
    let mut above = Vec::new(alloc);
    for pred in preds {
        above.push(pred_above(alloc, classes, noted, pred)?)?;
    }
    Ok(above)
}

// The predicate that a predicate is inherited from.
fn pred_above(
    alloc: Global,
    classes: &[Class],
    noted: &NameIndex,
    pred: &Pred,
) -> Result<Option<usize>, AllocError>
    ensures { IfOk result (λ number. number ≡ pred_above classes.now noted.now pred.now) }
{
    match classes.get(pred.class as usize) {
        Some(class) => inherited_pred(alloc, classes, noted, &pred.name, class.parent),
        None => Ok(None),
    }
}

// The predicate of this name that the class above has.
fn inherited_pred(
    alloc: Global,
    classes: &[Class],
    noted: &NameIndex,
    name: &Text,
    parent: Option<u32>,
) -> Result<Option<usize>, AllocError>
    ensures { IfOk result (λ number. number ≡ inherited_pred classes.now noted.now name.now parent) }
{
    match parent {
        Some(parent) => {
            let full = full_name(alloc, class_word(classes, parent), name)?;
            Ok(noted.find(&full))
        }
        None => Ok(None),
    }
}
