//! Places in a program.

ghost use Rattle.std.specs.Prelude.{◌≡◌, ◌↔◌, IsTrue};
ghost use Rattle.std.specs.Option.{option_copied};
ghost use Rattle.nddl_symbols.specs.Place.{IsPlaceBefore, file_of_place};

use super::site::Site;
use nddl_ast::declaration::FileDecls;

/// The number of a declaration among the joined ones, and a byte of its file.
#[derive(Clone, Copy, Debug, PartialEq, Eq)]
pub struct Place {
    pub decl: usize,
    pub at: u32,
}

impl Place {
    /// Whether it comes before the other.
    pub fn is_before(self, other: Place) -> bool
        ensures { IsTrue result ↔ IsPlaceBefore self other }
    {
        self.decl < other.decl || (self.decl == other.decl && self.at < other.at)
    }
}

/// The file in which the place is, where the joined declarations of the files stand at these sites.
pub fn file_of<'a>(files: &'a [FileDecls], sites: &[Site], place: Place) -> Option<&'a FileDecls>
    ensures { option_copied result ≡ file_of_place files.now sites.now place }
{
    let site = sites.get(place.decl)?;
    files.get(site.file)
}
