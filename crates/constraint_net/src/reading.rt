//! What a constraint leaves of one of its arguments. Domains are read where they are, and only one that gets smaller is
//! copied.

ghost use Rattle.std.specs.Prelude.{◌≡◌, ◌+◌, ◌<◌, pos, All, OnOk, length, map, slice_index_or};
ghost use Rattle.cell_store.specs.Cells.{present};
ghost use Rattle.domain_core.specs.Domain.{Range, IsValue};
ghost use Rattle.domain_core.specs.Consistency.{IsSupported};
ghost use Rattle.constraint_net.specs.Arguments.{IsArgument, domains_of};
ghost use Rattle.constraint_net.specs.Reading.{literal_of, literals_of, LeavesOwn, LeavesAt};

use super::constraint::NetArg;
use cell_store::Cells;
use domain_core::Change;
use domain_core::domain::Dom;
use narrow_core::narrow::Narrow;
use std::alloc::AllocError;

/// What is left of a domain.
#[derive(Drop)]
pub enum Left {
    /// Nothing has to go.
    Whole,
    /// Less than before.
    Part(Dom),
    Nothing,
}

// The value that stands as the argument. A variable has none that counts.
fn literal_of(arg: NetArg) -> i32
    ensures { result ≡ literal_of arg }
{
    match arg {
        NetArg::Lit(value) => value,
        NetArg::Var(_) => 0,
    }
}

// The value that stands as the argument, as a range that has it alone.
fn literal(arg: NetArg) -> Dom
    requires { IsValue (literal_of arg) }
    ensures { result ≡ Range (literal_of arg) (literal_of arg) }
{
    let value = literal_of(arg);
    match Dom::range(value, value) {
        Some(domain) => domain,
        None => unreachable!(),
    }
}

/// Brings the values among the arguments together, each as a domain.
pub fn gather(args: &[NetArg], literals: &mut Vec<Dom>) -> Result<(), AllocError>
    requires { All (λ arg. IsValue (literal_of arg)) args.now }
    ensures { OnOk result (literals.new.items ≡ literals_of args.now) }
{
    literals.clear();
    for arg in args {
        literals.push(literal(*arg))?;
    }
    Ok(())
}

// The domain of the argument at this place.
fn read<'a>(args: &[NetArg], place: usize, literals: &'a [Dom], cells: &'a Cells) -> &'a Dom
    requires place { place < length args.now }
    requires arguments { All (IsArgument (length (present cells.now))) args.now }
    requires literals { literals.now ≡ literals_of args.now }
    ensures { result.now ≡ slice_index_or (domains_of (present cells.now) args.now) place (Range (pos 0) (pos 0)) }
{
    match args[place] {
        NetArg::Var(variable) => match cells.get(variable) {
            Some(domain) => domain,
            None => unreachable!(),
        },
        NetArg::Lit(_) => &literals[place],
    }
}

// What the constraint leaves of an argument that stands between these others.
fn left_between<C: Narrow>(
    constraint: &C,
    before: &[&Dom],
    own: &Dom,
    after: &[&Dom],
) -> Result<Left, AllocError>
    requires { length before.now + 1 + length after.now ≡ C.count constraint.now }
    ensures { LeavesOwn (λ value. IsSupported (C.reach constraint.now) (C.holds constraint.now)
        (map (λ other. other.now) before.now) value (map (λ other. other.now) after.now)) own.now result }
{
    if constraint.supports(before, own, after) {
        return Ok(Left::Whole);
    }
    let mut left = own.copy()?;
    match constraint.keep_supported(before, &mut left, after) {
        Change::Same => Ok(Left::Whole),
        Change::Smaller => Ok(Left::Part(left)),
        Change::Empty => Ok(Left::Nothing),
    }
}

// The place of the first argument that isn't this one.
fn first_beside(place: usize) -> usize
    ensures first { place ≡ 0 → result ≡ 1 }
    ensures later { 0 < place → result ≡ 0 }
{
    if place == 0 { 1 } else { 0 }
}

// The place of the last one that isn't, where there are two or more.
fn last_beside(place: usize, last: usize) -> usize
    requires { 0 < last }
    ensures last { place ≡ last → result + 1 ≡ last }
    ensures before { place < last → result ≡ last }
{
    if place == last { last - 1 } else { last }
}

/// What the constraint leaves of the argument at this place.
pub fn left_at<C: Narrow>(
    constraint: &C,
    args: &[NetArg],
    place: usize,
    literals: &[Dom],
    cells: &Cells,
) -> Result<Left, AllocError>
    requires count { length args.now ≡ C.count constraint.now }
    requires place { place < length args.now }
    requires arguments { All (IsArgument (length (present cells.now))) args.now }
    requires literals { literals.now ≡ literals_of args.now }
    ensures { LeavesAt (C.reach constraint.now) (C.holds constraint.now) place
        (domains_of (present cells.now) args.now) result }
{
    let own = read(args, place, literals, cells);
    let last = args.len() - 1;
    let others = [
        read(args, first_beside(place), literals, cells),
        read(args, last_beside(place, last), literals, cells),
    ];
    let (before, after) = others[..last].split_at(place);
    left_between(constraint, before, own, after)
}
