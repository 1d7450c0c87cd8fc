//! Declared variables.

ghost use Rattle.std.specs.Prelude.{◌≡◌, ◌<◌, ◌^◌, length, bytes_eq};
ghost use Rattle.model_core.specs.Lookup.{first_named};

use domain_core::domain::Dom;
use eu_name::text::Text;

/// A declared variable: a global, a parameter, a local or a field.
#[derive(Drop)]
pub struct VarDecl {
    /// Its name; that of a global that stands for a field is `!` and its number, and a local has none.
    pub name: Text,
    pub kind: ValueKind,
    pub base: Base,
}

/// What the values of a variable are.
#[derive(Clone, Copy)]
pub enum ValueKind {
    /// Whole numbers.
    Int,
    /// Decimals, each kept as a whole number of thousandths.
    Float,
    Bool,
    /// The members of an enum, by its number.
    Enum(u32),
    Object,
}

/// The domain that a variable's declaration gives.
#[derive(Drop)]
pub enum Base {
    Given(Dom),
    /// There is no value: the class of an object variable has no object.
    Void,
}

/// The number of the first of the variables that has this name.
pub fn first_named(variables: &[VarDecl], name: &[u8]) -> Option<u32>
    requires { length variables.now < 2 ^ 32 }
    ensures { result ≡ first_named 0 name.now variables.now }
{
    for (number, variable) in variables.iter().enumerate() {
        if has_name(variable, name) {
            return Some(number as u32);
        }
    }
    None
}

// Whether the variable has this name.
fn has_name(variable: &VarDecl, name: &[u8]) -> bool
    ensures { result ≡ bytes_eq variable.now.name name.now }
{
    variable.name.as_bytes() == name
}
