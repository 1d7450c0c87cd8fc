//! What the bodies of constructors hand to what their classes extend.

ghost use Rattle.std.specs.Prelude.{◌≡◌};
ghost use Rattle.std.specs.Option.{option_copied};
ghost use Rattle.nddl_construction.specs.Passing.{handed_arguments, has_late_super, has_super, is_super, silent_arguments, super_arguments};

use nddl_ast::declaration::Set;
use nddl_ast::expression::Expr;

fn is_super(set: &Set) -> bool
    ensures { result ≡ is_super set.now }
{
    match set {
        Set::Super { .. } => true,
        Set::Field { .. } => false,
    }
}

fn has_super(body: &[Set]) -> bool
    ensures { result ≡ has_super body.now }
{
    for set in body {
        if is_super(set) {
            return true;
        }
    }
    false
}

/// Whether `super` stands behind the first part of the body.
pub fn has_late_super(body: &[Set]) -> bool
    ensures { result ≡ has_late_super body.now }
{
    match body {
        [] => false,
        [_, more @ ..] => has_super(more),
    }
}

// Nothing is handed up where there is no `super`.
fn silent_arguments(body: &[Set]) -> Option<&[Expr]>
    ensures { option_copied result ≡ silent_arguments body.now }
{
    if has_super(body) { None } else { Some(&[]) }
}

/// The arguments that a body hands to what the class extends.
pub fn super_arguments(body: &[Set]) -> Option<&[Expr]>
    ensures { option_copied result ≡ super_arguments body.now }
{
    match body {
        [] => Some(&[]),
        [Set::Super { arguments, .. }, ..] => Some(arguments.as_slice()),
        [Set::Field { .. }, more @ ..] => silent_arguments(more),
    }
}

/// What a body hands to what the class extends, if that takes so many arguments.
pub fn handed_arguments<'a>(count: usize, body: &'a [Set]) -> Option<&'a [Expr]>
    ensures { option_copied result ≡ handed_arguments count body.now }
{
    let arguments = super_arguments(body)?;
    if count == arguments.len() {
        Some(arguments)
    } else {
        None
    }
}
