//! Enums.

ghost use Rattle.std.specs.Prelude.{◌↔◌, All, IsTrue};
ghost use Rattle.eu_name.specs.Word.{IsName};
ghost use Rattle.model_core.specs.Lawful.{IsLawfulEnum};

use eu_name::is_name;
use eu_name::text::Text;
use model_core::class::Enum;
use model_rules::forms::{Form, have_form};

/// How many members an enum may have.
pub const MOST_MEMBERS: usize = 4096;

// Whether the texts are all names.
fn are_names(texts: &[Text]) -> bool
    ensures { IsTrue result ↔ All IsName texts.now }
{
    have_form(Form::Plain, texts)
}

// Whether the enum has a name, and 1 to 4,096 members with names.
fn is_lawful_enum(found: &Enum) -> bool
    ensures { IsTrue result ↔ IsLawfulEnum found.now }
{
    is_name(found.name.as_bytes())
        && are_names(found.members.as_slice())
        && !found.members.is_empty()
        && found.members.len() <= MOST_MEMBERS
}

/// Whether the enums are all lawful.
pub fn are_lawful_enums(enums: &[Enum]) -> bool
    ensures { IsTrue result ↔ All IsLawfulEnum enums.now }
{
    enums.iter().all(is_lawful_enum)
}
