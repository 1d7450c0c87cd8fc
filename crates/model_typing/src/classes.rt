//! Which classes are under which, and which objects are of a class.

ghost use Rattle.std.specs.Prelude.{◌≡◌, ◌↔◌, ℕ, ℤ, IsTrue, MatchOption};
ghost use Rattle.domain_core.specs.Domain.{Has, IsDomain};
ghost use Rattle.model_core.specs.declared.class.Object.{Object};
ghost use Rattle.model_core.specs.Kinds.{AreObjectsOf, IsObject, IsObjectOf, IsParentClass, IsUnder};
ghost use Rattle.model_typing.specs.Ground.{AreClassParents};

use domain_core::domain::Dom;
use eu_forest::Parents;
use model_core::class::Object;
use model_core::model::Model;
use model_core::variable::Base;

/// The class that the class of this number extends.
pub fn parent_of(model: &Model, class: u32) -> Option<u32>
    ensures { MatchOption result
        ((parent : ℕ) → IsParentClass model.now class parent → ⊥)
        (IsParentClass model.now class) }
{
    match model.classes.as_slice().get(class as usize) {
        Some(found) => found.parent,
        None => None,
    }
}

/// Whether the class is the other one, or extends it at once or over others.
pub fn is_under(model: &Model, parents: &Parents, class: u32, ancestor: u32) -> bool
    requires { AreClassParents model.now parents.now }
    ensures { IsTrue result ↔ IsUnder model.now class ancestor }
{
    if class == ancestor {
        return true;
    }
    match parents.is_on_line(class as usize, ancestor as usize) {
        Some(under) => under,
        None => leads_to(model, parents, class, ancestor),
    }
}

// Finds it out class by class up the line, which isn't known to end.
fn leads_to(model: &Model, parents: &Parents, class: u32, ancestor: u32) -> bool
    requires { AreClassParents model.now parents.now }
    ensures { IsTrue result ↔ IsUnder model.now class ancestor }
{
    let mut next = class;
    while next != ancestor {
        match parent_of(model, next) {
            Some(parent) => next = parent,
            None => return false,
        }
    }
    true
}

/// The object that the value is.
pub fn object_at(model: &Model, value: i32) -> Option<&Object>
    ensures { MatchOption result
        ((object : Object) → IsObject model.now value object → ⊥)
        (λ object. IsObject model.now value object.now) }
{
    if value < 0 {
        return None;
    }
    model.objects.as_slice().get(value as usize)
}

/// Whether the value is an object of the class, or of one under it.
pub fn is_object_of(model: &Model, parents: &Parents, class: u32, value: i32) -> bool
    requires { AreClassParents model.now parents.now }
    ensures { IsTrue result ↔ IsObjectOf model.now class value }
{
    match object_at(model, value) {
        Some(object) => is_under(model, parents, object.class, class),
        None => false,
    }
}

/// Whether all that the domain has are objects of the class.
pub fn are_objects_in(model: &Model, parents: &Parents, class: u32, domain: &Dom) -> bool
    requires { AreClassParents model.now parents.now }
    ensures told { IsTrue result ↔ ((value : ℤ) → Has domain.now value → IsObjectOf model.now class value) }
    ensures domain { IsDomain domain.now }
{
    for place in 0..domain.count() {
        if let Some(value) = domain.nth(place) {
            if !is_object_of(model, parents, class, value) {
                return false;
            }
        }
    }
    true
}

/// Whether all that the base has are objects of the class.
pub fn are_objects_of(model: &Model, parents: &Parents, class: u32, base: &Base) -> bool
    requires { AreClassParents model.now parents.now }
    ensures { IsTrue result ↔ AreObjectsOf model.now class base.now }
{
    match base {
        Base::Given(domain) => are_objects_in(model, parents, class, domain),
        Base::Void => true,
    }
}
