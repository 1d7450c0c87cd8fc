//! What has a name.

ghost use Rattle.std.specs.Prelude.{◌≡◌};

use eu_name::text::Text;
use model_core::class::{Class, Enum, Object};
use model_core::model::Root;
use model_core::variable::VarDecl;

/// Something with a name.
pub trait Named {
    ghost use Rattle.std.specs.Prelude.{List, ℕ};

    ghost named: { Self → List ℕ };

    fn name(&self) -> &Text
        ensures { result.now ≡ named self.now };
}

impl Named for Text {
    ghost named = { λ text. text };

    fn name(&self) -> &Text {
        self
    }
}

impl Named for VarDecl {
    ghost named = { λ variable. variable.name };

    fn name(&self) -> &Text {
        &self.name
    }
}

impl Named for Root {
    ghost named = { λ root. root.label };

    fn name(&self) -> &Text {
        &self.label
    }
}

impl Named for Object {
    ghost named = { λ object. object.name };

    fn name(&self) -> &Text {
        &self.name
    }
}

impl Named for Enum {
    ghost named = { λ found. found.name };

    fn name(&self) -> &Text {
        &self.name
    }
}

impl Named for Class {
    ghost named = { λ class. class.name };

    fn name(&self) -> &Text {
        &self.name
    }
}
