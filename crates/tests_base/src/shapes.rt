//! Domains in forms that can be written and compared.

use domain_core::Dom;
use std::alloc::Global;

/// Whether a domain is a range, its ends and how many values it has.
pub type Shape = (bool, i32, i32, u32);

pub fn shape(domain: &Dom) -> Shape {
    (domain.is_range(), domain.lo(), domain.hi(), domain.count())
}

/// A range by its ends, or a set by its members.
#[derive(Clone, Copy)]
pub enum Written {
    Ends(i32, i32),
    Members(&'static [i32]),
}

/// The domain that is written so.
pub fn made(alloc: Global, written: Written) -> Option<Dom> {
    match written {
        Written::Ends(lo, hi) => Dom::range(lo, hi),
        Written::Members(members) => Dom::set_of(alloc, members).ok(),
    }
}
