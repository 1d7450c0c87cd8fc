//! What is known of files before any question is asked of them.

ghost use Rattle.std.specs.Prelude.{◌≡◌, IfOk};
ghost use Rattle.nddl_symbols.specs.Joined.{joined_decls};
ghost use Rattle.nddl_symbols.specs.Names.{scope_names};
ghost use Rattle.nddl_hierarchy.specs.Facts.{facts_of};
ghost use Rattle.nddl_declarations.specs.Known.{AreFacts};
ghost use Rattle.nddl_types.specs.Classes.{class_entries, class_numbers};

use super::files::{Joined, Program};
use super::findings::Findings;
use nddl_ast::declaration::FileDecls;
use nddl_hierarchy::Basis;
use std::alloc::{AllocError, Global};
use std::marker::Model;

/// Files, which are all that contracts see of it, with what the answers on them rest on: their joined declarations, the
/// names of these with what they stand under, and what the typedefs mean.
#[derive(Drop)]
pub struct Groundwork<'a> {
    joined: Joined<'a>,
    findings: Findings,
}

impl<'a> Model for Groundwork<'a> {
    ghost use Rattle.std.specs.Prelude.{List};
    ghost use Rattle.std.specs.Coded.{coded_list};
    ghost use Rattle.nddl_ast.specs.contracts.declaration.FileDecls as a_file;
    ghost use Rattle.nddl_ast.specs.declared.declaration.FileDecls.{FileDecls};
    ghost use Rattle.nddl_symbols.specs.Joined.{joined_decls};
    ghost use Rattle.nddl_types.specs.Grounds.{AreFound};

    ghost Value = { List FileDecls };

    ghost coded = { coded_list a_file.the_row.coded };

    ghost view = { λ inside. inside.joined.files.now };

    ghost invariant = { λ inside. AreFound (joined_decls inside.joined.files.now) inside.findings };
}

impl<'a> Groundwork<'a> {
    /// Of these files, which are in the order in which they were read.
    pub fn of(alloc: Global, files: &'a [FileDecls]) -> Result<Groundwork<'a>, AllocError>
        ensures { IfOk result (λ groundwork. groundwork ≡ files.now) }
    {
        let joined = Joined::of(alloc, files)?;
        let findings = Findings::of(alloc, joined.members.decls(), &joined.members)?;
        Ok(Groundwork { joined, findings })
    }

    /// The files with their joined declarations.
    pub fn program(&self) -> Program<'_>
        ensures { result.files.now ≡ self.now }
    {
        self.joined.program()
    }

    /// What is known of the program where its types are read.
    pub fn basis(&self) -> Basis<'_>
        ensures { AreFacts (scope_names (joined_decls self.now)) (joined_decls self.now) (facts_of result) }
    {
        self.findings.basis(&self.joined.members)
    }

    /// The numbers of those names that are classes, each where it is declared first.
    pub fn class_entries(&self) -> &[usize]
        ensures { result.now
            ≡ class_entries (scope_names (joined_decls self.now)) 0 (scope_names (joined_decls self.now)) }
    {
        self.findings.names.entries.as_slice()
    }

    /// Which class each name would be.
    pub fn class_numbers(&self) -> &[u32]
        ensures { result.now
            ≡ class_numbers (scope_names (joined_decls self.now)) 4 0 (scope_names (joined_decls self.now)) }
    {
        self.findings.names.numbers.as_slice()
    }
}
