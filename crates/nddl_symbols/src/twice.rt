//! Names that are declared a second time in the scope of a program's files.

ghost use Rattle.std.specs.Prelude.{◌≡◌};
ghost use Rattle.nddl_symbols.specs.Finding.{earliest_fault};
ghost use Rattle.nddl_symbols.specs.Scope.{config_number, fault_if, is_another, is_repeated, is_second_body, is_second_config, is_second_name, second_name_faults};

use super::builtin::is_builtin;
use super::declared::Declared;
use super::fault::{Fault, note_at};
use super::scope::Scope;
use nddl_ast::TextKind;

/// Notes each name of the scope that is declared already, or is the language's own.
#[tactic(auto, using(crate::proofs::Earliest::earliest_append))]
pub fn note_second_names(scope: &Scope, first: &mut Option<Fault>)
    ensures { first.new ≡ earliest_fault first.old (second_name_faults scope.now 0 scope.now) }
{
    let names = scope.names();
    let config = first_config(names);
    for (number, declared) in names.iter().enumerate() {
        let is_second = is_second(scope, config, number, declared);
        let place = declared.place;
        note_at(
            first,
            place.decl,
            place.at,
            kind_if(is_second, TextKind::Twice),
        );
    }
}

/// The kind, if so.
pub fn kind_if(so: bool, kind: TextKind) -> Option<TextKind>
    ensures { result ≡ fault_if so kind }
{
    if so { Some(kind) } else { None }
}

// Whether the name of this number is declared already, or is the language's own.
fn is_second(scope: &Scope, config: Option<usize>, number: usize, declared: &Declared) -> bool
    requires { config ≡ config_number scope.now }
    ensures { result ≡ is_second_name scope.now number declared.now }
{
    is_builtin(declared.name.as_str())
        || (is_repeated(scope, number, declared)
            || (is_second_body(scope, number, declared)
                || (declared.sort.is_config() && is_another(config, number))))
}

// Whether another name is the first of this spelling, and the two aren't both classes.
fn is_repeated(scope: &Scope, number: usize, declared: &Declared) -> bool
    ensures { result ≡ is_repeated scope.now number declared.now }
{
    match scope.entry(&declared.name) {
        Some(first) => first != number && !(declared.sort.is_class() && scope.is_class(first)),
        None => false,
    }
}

// Whether the class has its members already.
fn is_second_body(scope: &Scope, number: usize, declared: &Declared) -> bool
    ensures { result ≡ is_second_body scope.now number declared.now }
{
    declared.sort.is_body() && is_another(scope.body(&declared.name), number)
}

// Whether there is a first one, and it is another.
fn is_another(first: Option<usize>, number: usize) -> bool
    ensures { result ≡ is_another first number }
{
    match first {
        Some(first) => first != number,
        None => false,
    }
}

// The number of the first settings of a search.
fn first_config(names: &[Declared]) -> Option<usize>
    ensures { result ≡ config_number names.now }
{
    for (number, declared) in names.iter().enumerate() {
        if declared.sort.is_config() {
            return Some(number);
        }
    }
    None
}
