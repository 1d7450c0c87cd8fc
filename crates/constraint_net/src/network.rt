//! Networks.

ghost use Rattle.std.specs.Prelude.{◌≡◌, ◌^◌, ◌<◌, ◌≤◌, List, [], ◌∷◌, ◌++◌, All, length, take, true};
ghost use Rattle.std.specs.Prelude.{Contains, IsTrue, OnOk, OnErr, IfOk, MatchOption, Some};
ghost use Rattle.std.specs.Prelude.{slice_get};
ghost use Rattle.domain_core.specs.Domain.{Domain, IsDomain};
ghost use Rattle.constraint_net.specs.Networks.{CanPost, AllConsistent, IsIdle};
ghost use Rattle.constraint_net.specs.Steps.{PropagatesTo};
ghost use Rattle.constraint_net.specs.Calls.{IsAscending, given_by, table_of, AddsVar, Limits, Posts};
ghost use Rattle.constraint_net.specs.Calls.{GoesDown, TakesChanged};
ghost use Rattle.constraint_net.specs.Agendas.{Forgets};
ghost use Rattle.constraint_net.specs.Waiting.{NameWithin};
ghost use Rattle.constraint_net.specs.Marks.{IsMark, IsLatest, CanReturn, KeepMarks, Returns, HaveChanged};
ghost use Rattle.constraint_net.specs.declared.constraint.Constraint.{Constraint};

use super::NetFault;
use super::agenda::Agenda;
use super::constraint::NetArg;
use super::domains::Domains;
use super::posted::Posted;
use super::propagating::propagate;
use super::written::written_since;
use cell_store::Mark as CellMark;
use domain_core::Change;
use domain_core::domain::Dom;
use domain_core::kind::Kind;
use eu_name::sequence::Sequence;
use narrow_core::field::{Field, FieldEntry};
use std::alloc::{AllocError, Global};
use std::marker::Model;

/// Variables, numbered as they were added, and constraints on them.
#[derive(Drop)]
pub struct Net {
    domains: Domains,
    tables: Vec<Field>,
    constraints: Posted,
    // The latest mark that was handed out and not gone back behind. What came after it is written in place.
    marked: CellMark,
}

/// A point to which a network can go back, as long as it hasn't gone back to one before it.
#[derive(Clone, Copy)]
pub struct Mark {
    cells: CellMark,
    constraints: usize,
    // Nothing waited there, so nothing does after going back.
    idle: bool,
}

impl Model for Net {
    ghost use Rattle.constraint_net.specs.Networks.{Network};
    ghost use Rattle.constraint_net.specs.Kept.{network_of, IsKeptNet};

    ghost Value = { Network };

    ghost view = { λ net. network_of net.domains net.tables net.constraints net.marked };

    ghost invariant = { λ net. IsKeptNet net.domains net.tables net.constraints net.marked };
}

impl Net {
    /// A network without variables, which takes no memory.
    pub fn new(alloc: Global) -> Net
        ensures { result ≡ record {
          domains = [];
          tables = [];
          constraints = [];
          work = 0;
          stamps = [];
          older = [];
          marked = 0;
          changed = [];
          quiet = 0;
        } }
    {
        let domains = Domains::new(alloc);
        Net {
            marked: domains.cells.mark(),
            domains,
            tables: Vec::new(alloc),
            constraints: Posted::new(alloc),
        }
    }

    /// Adds a table of objects, each with its value in a field, and answers its number.
    pub fn add_table(&mut self, pairs: &[(i32, i32)]) -> Result<u32, AllocError>
        requires ascending { IsAscending pairs.now }
        requires few { length self.old.tables < 2 ^ 32 }
        ensures ok { IfOk result (λ number. (number ≡ length self.old.tables)
            × (self.new ≡ record self.old { tables = self.old.tables ++ table_of pairs.now ∷ [] })) }
        ensures err { OnErr result (self.new ≡ self.old) }
    {
        let number = self.tables.len() as u32;
        let table = table(*self.tables.allocator(), pairs)?;
        self.tables.push(table)?;
        Ok(number)
    }

    /// Adds a variable with this domain, and answers its number.
    pub fn add_var(&mut self, domain: Dom) -> Result<usize, AllocError>
        ensures added { AddsVar domain self.old result self.new }
        ensures domain { IsDomain domain }
    {
        self.domains.add(domain)
    }

    /// Asks from now on that the constraint holds. No domain changes before `propagate_all`.
    pub fn post(&mut self, kind: Kind, args: &[NetArg]) -> Result<(), AllocError>
        requires { CanPost self.old.tables (length self.old.domains) kind args.now }
        ensures { Posts self.old kind args.now result self.new }
    {
        self.domains.agenda.enrol(self.constraints.len(), args)?;
        self.constraints.push(kind, args)
    }

    /// Whether the constraint is known to be posted. Only those that one variable is at most another can be known, and even these
    /// not for sure: the answer spares a second one.
    pub fn is_known(&self, kind: Kind, args: &[NetArg]) -> bool
        ensures { IsTrue result → Contains self.now.constraints (record { kind = kind; args = args.now }) }
    {
        self.constraints.is_known(kind, args)
    }

    /// Keeps the values of the variable that the other domain has too.
    pub fn limit(&mut self, variable: usize, to: &Dom) -> Result<Change, AllocError>
        requires { variable < length self.old.domains }
        ensures { Limits self.old variable to.now result self.new }
    {
        self.domains.limit(variable, to, self.marked)
    }

    /// The domain of the variable. None where there is no such variable.
    pub fn get(&self, variable: usize) -> Option<&Dom>
        ensures { MatchOption result (length self.now.domains ≤ variable)
            (λ domain. slice_get self.now.domains variable ≡ Some domain.now) }
    {
        self.domains.cells.get(variable)
    }

    /// How often the variable's domain was written; the number stays at the greatest. None where there is no such
    /// variable.
    pub fn stamp(&self, variable: usize) -> Option<u64>
        ensures { MatchOption result (length self.now.domains ≤ variable)
            (λ stamp. slice_get self.now.stamps variable ≡ Some stamp) }
    {
        self.domains.cells.stamp(variable)
    }

    /// Takes values away until all constraints are consistent; where none waits nothing is narrowed. After Collapsed and
    /// Memory some values may be gone; after Memory the call may be made again, and after Collapsed only `back_to` brings
    /// values back.
    pub fn propagate_all(&mut self) -> Result<(), NetFault>
        ensures propagated { PropagatesTo (AllConsistent self.old.tables self.old.constraints)
            self.old.domains result self.new.domains }
        ensures domains { All IsDomain self.new.domains }
        ensures variables { length self.new.domains ≡ length self.old.domains }
        ensures others { GoesDown self.old self.new }
        ensures counted { self.old.work ≤ self.new.work }
        ensures quiet { OnOk result (self.new.quiet ≡ length self.new.constraints) }
        ensures idle { self.old.quiet ≡ length self.old.constraints → self.new.work ≡ self.old.work }
    {
        propagate(
            &self.constraints,
            self.tables.as_slice(),
            &mut self.domains,
            self.marked,
        )
    }

    /// A mark at the network as it is. What changes between two marks takes memory once for each variable.
    pub fn mark(&mut self) -> Mark
        ensures marked { self.new ≡ record self.old { marked = length self.old.older } }
        ensures is { IsMark self.new result self.old.domains self.old.constraints }
        ensures latest { IsLatest self.new result }
        ensures keeps { KeepMarks self.old self.new }
        ensures idle { IsIdle self.old → result.idle ≡ true }
    {
        self.marked = self.domains.cells.mark();
        let count = self.constraints.len();
        Mark {
            cells: self.marked,
            constraints: count,
            idle: self.domains.agenda.is_idle(count),
        }
    }

    /// Brings back the variables, their domains and the constraints at the mark, without memory. Where nothing waited then,
    /// nothing waits now, whatever happened since.
    pub fn back_to(&mut self, mark: Mark)
        requires { CanReturn self.old mark }
        ensures { Returns mark self.old self.new }
    {
        self.domains.turn_back(mark.cells, mark.idle);
        forget(
            &mut self.constraints,
            &mut self.domains.agenda,
            mark.constraints,
        );
        self.domains.cells.back_to(mark.cells);
        self.marked = mark.cells;
    }

    /// The variables that were written since the mark, by number, some of them perhaps twice.
    pub fn written_since(&self, mark: Mark) -> Result<Vec<usize>, AllocError>
        requires { CanReturn self.now mark }
        ensures { IfOk result (λ numbers. (domains : List Domain) (constraints : List Constraint)
            → IsMark self.now mark domains constraints → HaveChanged numbers.items domains self.now.domains) }
    {
        written_since(*self.tables.allocator(), &self.domains.cells, mark.cells)
    }

    /// Takes the next variable off the list of those that have changed. That list has each variable whose domain was
    /// written by `limit`, `propagate_all` or `back_to` since it was last taken off, and perhaps others, also of
    /// numbers that no variable has any more. It is empty after `back_to` to a mark at which nothing waited.
    pub fn next_changed(&mut self) -> Option<usize>
        ensures { TakesChanged self.old result self.new }
    {
        self.domains.agenda.changed.take()
    }

    /// How many narrowings the network has made. It stays at the greatest number, and nothing is taken back.
    pub fn work(&self) -> u64
        ensures { result ≡ self.now.work }
    {
        self.domains.work
    }
}

// Takes the constraints from the count on off, and tells none of them any more of its variables.
fn forget(constraints: &mut Posted, agenda: &mut Agenda, count: usize)
    requires { NameWithin (length agenda.old.watchers) constraints.old }
    ensures taken { constraints.new ≡ take count constraints.old }
    ensures forgets { Forgets count agenda.old agenda.new }
{
    while constraints.len() > count {
        if let Some(last) = constraints.pop() {
            agenda.forget(last.args.as_slice(), count);
        }
    }
}

// What the pairs give the objects, in their order.
fn entries(alloc: Global, pairs: &[(i32, i32)]) -> Result<Vec<FieldEntry>, AllocError>
    ensures { IfOk result (λ entries. entries.items ≡ given_by pairs.now) }
{
    let mut entries = Vec::with_capacity(alloc, pairs.len())?;
    for (object, value) in pairs {
        entries.push(FieldEntry {
            object: *object,
            value: *value,
        })?;
    }
    Ok(entries)
}

// The table of these pairs.
fn table(alloc: Global, pairs: &[(i32, i32)]) -> Result<Field, AllocError>
    requires { IsAscending pairs.now }
    ensures { IfOk result (λ table. table ≡ table_of pairs.now) }
{
    let entries = entries(alloc, pairs)?;
    Field::new(entries)
}
