//! The numbers of classes.

ghost use Rattle.std.specs.Prelude.{◌≡◌, ◌+◌, IfOk};
ghost use Rattle.nddl_types.specs.Classes.{class_entries, class_number, class_numbers, is_first, is_first_class, parent_number};

use nddl_symbols::{Declared, Meaning, Scope};
use std::alloc::{AllocError, Global};

/// Whether nothing is declared under the name before this number.
pub fn is_first(scope: &Scope, number: usize, declared: &Declared) -> bool
    ensures { result ≡ is_first scope.now number declared.now }
{
    match scope.entry(&declared.name) {
        Some(first) => first == number,
        None => false,
    }
}

// Whether the name is a class, and is declared first here.
fn is_first_class(scope: &Scope, number: usize, declared: &Declared) -> bool
    ensures { result ≡ is_first_class scope.now number declared.now }
{
    declared.sort.is_class() && is_first(scope, number, declared)
}

/// The numbers of those names that are classes, each where it is declared first.
pub fn class_entries(alloc: Global, scope: &Scope) -> Result<Vec<usize>, AllocError>
    ensures { IfOk result (λ entries. entries.items ≡ class_entries scope.now 0 scope.now) }
{
    let mut entries = Vec::new(alloc);
    let names = scope.names();
    for (number, declared) in names.iter().enumerate() {
        if is_first_class(scope, number, declared) {
            entries.push(number)?;
        }
    }
    Ok(entries)
}

/// Which class each name would be: the built-in ones come first.
pub fn class_numbers(alloc: Global, scope: &Scope) -> Result<Vec<u32>, AllocError>
    ensures { IfOk result (λ numbers. numbers.items ≡ class_numbers scope.now 4 0 scope.now) }
{
    let mut numbers = Vec::new(alloc);
    let mut next: u32 = 4;
    let names = scope.names();
    for (number, declared) in names.iter().enumerate() {
        numbers.push(next)?;
        if is_first_class(scope, number, declared) {
            next = next_number(next)?;
        }
    }
    Ok(numbers)
}

// The number behind this one.
fn next_number(number: u32) -> Result<u32, AllocError>
    ensures { IfOk result (λ next. next ≡ number + 1) }
{
    if number == u32::MAX {
        return Err(AllocError);
    }
    Ok(number + 1)
}

/// The number of what means this as a class.
pub fn class_number(scope: &Scope, numbers: &[u32], meaning: Meaning) -> u32
    requires { numbers.now ≡ class_numbers scope.now 4 0 scope.now }
    ensures { result ≡ class_number scope.now meaning }
{
    match meaning {
        Meaning::BuiltIn(number) => number,
        Meaning::Entry(entry) => match numbers.get(entry) {
            Some(number) => *number,
            None => 0,
        },
    }
}

/// The number of the class that a class extends which extends what means this.
pub fn parent_number(scope: &Scope, numbers: &[u32], meaning: Option<Meaning>) -> u32
    requires { numbers.now ≡ class_numbers scope.now 4 0 scope.now }
    ensures { result ≡ parent_number scope.now meaning }
{
    match meaning {
        Some(meaning) => class_number(scope, numbers, meaning),
        None => 0,
    }
}
