//! What the names in a rule mean, by their places.

ghost use Rattle.std.specs.Prelude.{◌≡◌, ◌<◌, length, AllPairs};
ghost use Rattle.nddl_terms.specs.Names.{AreReadInOrder, name_read_at};

use crate::{Meaning, ReadName};

/// The names that are read in a rule, in order of place.
#[derive(Clone, Copy)]
pub struct ReadNames<'a> {
    names: &'a [ReadName],
    ghost ordered: { AreReadInOrder names.now },
}

impl<'a> ReadNames<'a> {
    pub fn new(names: &'a [ReadName]) -> ReadNames<'a>
        requires { AreReadInOrder names.now }
        ensures { result.names.now ≡ names.now }
    {
        ReadNames { names }
    }

    /// What the name means that is read there.
    pub fn meaning(&self, at: u32) -> Option<Meaning>
        ensures { result ≡ name_read_at at self.now.names.now }
    {
        meaning_among(self.names, at)
    }
}

// What the name means that is read there, found by halves.
fn meaning_among(names: &[ReadName], at: u32) -> Option<Meaning>
    requires { AreReadInOrder names.now }
    ensures { result ≡ name_read_at at names.now }
{
    let (front, back) = names.split_at(names.len() / 2);
    match back.first() {
        None => None,
        Some(read) => {
            if read.at == at {
                Some(read.meaning)
            } else if at < read.at {
                meaning_among(front, at)
            } else {
                meaning_among(&back[1..], at)
            }
        }
    }
}
