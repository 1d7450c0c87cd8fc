//! The files of a program.

ghost use Rattle.std.specs.Prelude.{◌≡◌, IfOk, Some, map};
ghost use Rattle.std.specs.List.{filter_map};
ghost use Rattle.nddl_symbols.specs.Joined.{decl_in, joined_decls, joined_sites};
ghost use Rattle.nddl_declarations.specs.Faults.{told_fault};

use eu_name::sequence::Sequence;
use nddl_ast::TextFault;
use nddl_ast::declaration::{Decl, FileDecls};
use nddl_hierarchy::MemberIndex;
use nddl_symbols::joining::decl_at;
use nddl_symbols::place::file_of;
use nddl_symbols::{Fault, Site, join};
use std::alloc::{AllocError, Global};

/// Files, with the sites of their joined declarations and those themselves.
#[derive(Clone, Copy)]
pub struct Program<'a> {
    pub files: &'a [FileDecls],
    pub sites: &'a [Site],
    pub decls: &'a [&'a Decl],
    ghost are_sites: { sites.now ≡ joined_sites files.now },
    ghost are_decls: { map (λ decl. decl.now) decls.now ≡ joined_decls files.now },
}

/// Files whose declarations are joined, with an index of the members of their classes.
#[derive(Drop)]
pub struct Joined<'a> {
    pub files: &'a [FileDecls],
    pub sites: Sequence<Site>,
    pub members: MemberIndex<'a>,
    ghost are_sites: { sites ≡ joined_sites files.now },
    ghost are_decls: { members ≡ joined_decls files.now },
}

impl<'a> Joined<'a> {
    /// The files joined, which are in the order in which they were read.
    pub fn of(alloc: Global, files: &'a [FileDecls]) -> Result<Joined<'a>, AllocError>
        ensures { IfOk result (λ joined. joined.files.now ≡ files.now) }
    {
        let sites = join(alloc, files)?;
        let decls = list_decls(alloc, files, sites.as_slice())?;
        let members = MemberIndex::of(alloc, decls)?;
        Ok(Joined {
            files,
            sites,
            members,
        })
    }

    /// The files as a program.
    pub fn program(&self) -> Program<'_>
        ensures { result.files.now ≡ self.now.files.now }
    {
        Program {
            files: self.files,
            sites: self.sites.as_slice(),
            decls: self.members.decls(),
        }
    }
}

// The declarations at these sites.
fn list_decls<'a>(
    alloc: Global,
    files: &'a [FileDecls],
    sites: &[Site],
) -> Result<Vec<&'a Decl>, AllocError>
    ensures { IfOk result (λ decls. map (λ decl. decl.now) decls.items ≡ filter_map (decl_in files.now) sites.now) }
{
    let mut decls = Vec::new(alloc);
    for site in sites {
        if let Some(decl) = decl_at(files, *site) {
            decls.push(decl)?;
        }
    }
    Ok(decls)
}

/// The fault as it is answered. It stands in one of the files.
pub fn told(program: &Program<'_>, fault: Fault) -> Result<TextFault, AllocError>
    ensures { IfOk result (λ answer. Some answer ≡ told_fault program.now.files.now fault) }
{
    match file_of(program.files, program.sites, fault.place) {
        Some(file) => Ok(TextFault::At {
            kind: fault.kind,
            file: file.name.copy()?,
            at: fault.place.at,
        }),
        None => Err(AllocError),
    }
}
