//! The declarations of files, joined.

ghost use Rattle.std.specs.Prelude.{◌≡◌, ◌<◌, ◌++◌, IfOk, length};
ghost use Rattle.std.specs.Option.{option_copied};
ghost use Rattle.nddl_symbols.specs.Joined.{Stretch, decl_in, decl_stretch, file_stretch, is_file_named, joined_sites};

use super::site::Site;
use eu_name::sequence::Sequence;
use nddl_ast::declaration::{Decl, FileDecls};
use std::alloc::{AllocError, Global};

/// The sites of all declarations of the files, which are in the order in which they were read: those of an included
/// file stand at the place of its include, and the include is none of them.
pub fn join(alloc: Global, files: &[FileDecls]) -> Result<Sequence<Site>, AllocError>
    ensures { IfOk result (λ sites. sites ≡ joined_sites files.now) }
{
    let mut sites = Sequence::new(alloc);
    if !files.is_empty() {
        let _ = join_file(files, 0, files.len(), &mut sites)?;
    }
    Ok(sites)
}

/// The declaration at the site, if there is one.
pub fn decl_at(files: &[FileDecls], site: Site) -> Option<&Decl>
    ensures { option_copied result ≡ decl_in files.now site }
{
    files.get(site.file)?.decls.as_slice().get(site.decl)
}

// Whether the file of this number is there and has this name.
fn is_file_named(files: &[FileDecls], number: usize, name: &[u8]) -> bool
    ensures { result ≡ is_file_named files.now number name.now }
{
    match files.get(number) {
        Some(file) => file.name.as_bytes() == name,
        None => false,
    }
}

// Puts the sites of the file of this number at the end, with those of the files in it, as many levels deep. Gives the
// number of the next file.
#[cycle(joining)]
fn join_file(
    files: &[FileDecls],
    number: usize,
    levels: usize,
    sites: &mut Sequence<Site>,
) -> Result<usize, AllocError>
    requires { number < length files.now }
    ensures { IfOk result (λ next. let stretch = file_stretch levels files.now number in
        (sites.new ≡ sites.old ++ stretch.sites) × (next ≡ stretch.next)) }
{
    if levels == 0 {
        return Ok(number);
    }
    let decls = files[number].decls.as_slice();
    let mut next = number + 1;
    for (i, decl) in decls.iter().enumerate() {
        let site = Site {
            file: number,
            decl: i,
        };
        next = join_decl(files, site, decl, next, levels - 1, sites)?;
    }
    Ok(next)
}

// Puts what stands for the declaration at the end.
#[cycle(joining)]
fn join_decl(
    files: &[FileDecls],
    site: Site,
    decl: &Decl,
    next: usize,
    levels: usize,
    sites: &mut Sequence<Site>,
) -> Result<usize, AllocError>
    ensures { IfOk result (λ after.
        let stretch = decl_stretch (file_stretch levels files.now) files.now site decl.now next in
        (sites.new ≡ sites.old ++ stretch.sites) × (after ≡ stretch.next)) }
{
    match decl {
        Decl::Include { file, .. } => {
            if is_file_named(files, next, file.as_slice()) {
                join_file(files, next, levels, sites)
            } else {
                Ok(next)
            }
        }
        _ => {
            sites.push(site)?;
            Ok(next)
        }
    }
}
