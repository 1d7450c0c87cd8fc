//! The names that the language gives to classes of its own.

ghost use Rattle.std.specs.Prelude.{◌≡◌};
ghost use Rattle.nddl_symbols.specs.Builtin.{is_builtin_name, is_config_name};
ghost use Rattle.nddl_symbols.specs.Scope.{builtin_number};

/// How many built-in classes there are.
pub const BUILTIN_CLASSES: usize = 4;

/// Whether the name is that of the settings of a search, of which there is no object.
pub fn is_config(name: &str) -> bool
    ensures { result ≡ is_config_name name.now }
{
    name == "PlannerConfig"
}

/// The number of the built-in class of this name.
pub fn builtin_number(name: &str) -> Option<u32>
    ensures { result ≡ builtin_number name.now }
{
    match name {
        "Object" => Some(0),
        "Timeline" => Some(1),
        "Reusable" => Some(2),
        "Reservoir" => Some(3),
        _ => None,
    }
}

/// Whether no file may declare the name.
pub fn is_builtin(name: &str) -> bool
    ensures { result ≡ is_builtin_name name.now }
{
    name == "Object"
        || (name == "Timeline"
            || (name == "Reusable" || (name == "Reservoir" || name == "PlannerConfig")))
}
