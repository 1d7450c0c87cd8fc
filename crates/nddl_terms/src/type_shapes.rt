//! What variables may be whose types are names.

ghost use Rattle.std.specs.Prelude.{◌≡◌, ◌++◌, ◌∷◌, [], OnOk, length};
ghost use Rattle.std.specs.Option.{option_copied};
ghost use Rattle.nddl_terms.specs.TypeShapes.{place_in, type_named};

use super::lexicon::Shape;
use std::alloc::{AllocError, Global};
use std::marker::Model;

/// What a variable may be whose type is a name, by the number of the name, or nothing where the name is no type.
/// Names that mean the same may share one shape.
#[derive(Drop)]
pub struct TypeShapes {
    shapes: Vec<Shape>,
    // The place of each name's shape.
    places: Vec<Option<usize>>,
}

impl Model for TypeShapes {
    ghost use Rattle.std.specs.Prelude.{List, Option, map};
    ghost use Rattle.std.specs.Coded.{coded_list, coded_option};
    ghost use Rattle.nddl_terms.specs.contracts.lexicon.Shape as a_shape;
    ghost use Rattle.nddl_terms.specs.declared.lexicon.Shape.{Shape};
    ghost use Rattle.nddl_terms.specs.TypeShapes.{ArePlaced, placed_shape};

    ghost Value = { List (Option Shape) };

    ghost coded = { coded_list (coded_option a_shape.the_row.coded) };

    ghost view = { λ inside. map (placed_shape inside.shapes.items) inside.places.items };

    ghost invariant = { λ inside. ArePlaced inside.shapes.items inside.places.items };
}

impl TypeShapes {
    /// Those of no names, which take no memory.
    pub fn new(alloc: Global) -> TypeShapes
        ensures { result ≡ [] }
    {
        TypeShapes {
            shapes: Vec::new(alloc),
            places: Vec::new(alloc),
        }
    }

    /// How many names there are.
    pub fn len(&self) -> usize
        ensures { result ≡ length self.now }
    {
        self.places.len()
    }

    /// What a variable may be whose type is the name of this number.
    pub fn named(&self, number: usize) -> Option<&Shape>
        ensures { option_copied result ≡ type_named self.now number }
    {
        match place_in(self.places.as_slice(), number) {
            Some(place) => self.shapes.get(place),
            None => None,
        }
    }

    /// One more name, which is no type.
    pub fn push_none(&mut self) -> Result<(), AllocError>
        ensures { OnOk result (self.new ≡ self.old ++ None ∷ []) }
    {
        self.places.push(None)?;
        Ok(())
    }

    /// One more name, a variable of which may be this.
    pub fn push(&mut self, shape: Shape) -> Result<(), AllocError>
        ensures { OnOk result (self.new ≡ self.old ++ Some shape ∷ []) }
    {
        let place = self.shapes.len();
        self.shapes.push(shape)?;
        self.places.push(Some(place))?;
        Ok(())
    }

    /// One more name, a variable of which may be what one of the name of this number may be. The two share it.
    pub fn push_shared(&mut self, number: usize) -> Result<(), AllocError>
        ensures { OnOk result (self.new ≡ self.old ++ type_named self.old number ∷ []) }
    {
        let place = place_in(self.places.as_slice(), number);
        self.places.push(place)?;
        Ok(())
    }
}

// The place of the shape of the name of this number.
fn place_in(places: &[Option<usize>], number: usize) -> Option<usize>
    ensures { result ≡ place_in places.now number }
{
    match places.get(number) {
        Some(place) => *place,
        None => None,
    }
}
