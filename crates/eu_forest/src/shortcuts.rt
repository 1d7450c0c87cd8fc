//! What things stand under, with shortcuts along their lines, so that a test whether one stands on the line of another
//! takes a time that is logarithmic in how deep they stand.

ghost use Rattle.std.specs.Prelude.{◌≡◌, ◌+◌, ◌<◌, ◌↔◌, IfOk, IfSome, None, Some, replicate, slice_get};
ghost use Rattle.eu_forest.specs.Ancestors.{parent_in};
ghost use Rattle.eu_forest.specs.Shortcuts.{AreShortcuts, EndsAt, GoesOn, GoesOver, HasShortcut, IsShortcut, JumpsUp, Reaches, StepsUp, TellsLine, depth_in, jump_in, shortcut_in, with_shortcut};

use std::alloc::{AllocError, Global};
use std::marker::Model;

/// A way up from a thing that leads to one that stands under nothing.
#[derive(Clone, Copy)]
pub struct Shortcut {
    // How many things it leads up to.
    pub depth: usize,
    // One of these, or it itself where there are none.
    pub jump: usize,
    // The last of them, or it itself.
    pub root: usize,
}

/// What each thing stands under.
#[derive(Drop)]
pub struct Parents {
    up: Vec<Option<usize>>,
    shortcuts: Vec<Option<Shortcut>>,
}

impl Model for Parents {
    ghost use Rattle.std.specs.Prelude.{List, Option, ℕ};
    ghost use Rattle.eu_forest.specs.Shortcuts.{AreShortcuts};

    ghost Value = { List (Option ℕ) };

    ghost view = { λ inside. inside.up.items };

    ghost invariant = { λ inside. AreShortcuts inside.up.items inside.shortcuts.items };
}

impl Parents {
    /// Of things that stand under these, in an order in which what each stands under comes before it.
    pub fn of(alloc: Global, up: Vec<Option<usize>>, order: &[usize]) -> Result<Parents, AllocError>
        ensures { IfOk result (λ parents. parents ≡ up.items) }
    {
        let shortcuts = shortcuts_along(alloc, up.as_slice(), order)?;
        Ok(Parents { up, shortcuts })
    }

    /// What each thing stands under.
    pub fn as_slice(&self) -> &[Option<usize>]
        ensures { result.now ≡ self.now }
    {
        self.up.as_slice()
    }

    /// The last thing on the line of this one, if it is known to end.
    pub fn root(&self, number: usize) -> Option<usize>
        ensures { IfSome result (EndsAt self.now number) }
    {
        root_at(self.up.as_slice(), self.shortcuts.as_slice(), number)
    }

    /// Whether the other thing stands on the line of this one, if that is known to end.
    pub fn is_on_line(&self, number: usize, other: usize) -> Option<bool>
        ensures { IfSome result (TellsLine self.now number other) }
    {
        climb(self.up.as_slice(), self.shortcuts.as_slice(), number, other)
    }
}

/// What the thing of this number stands under, where the things stand under these.
pub fn parent_in(parents: &[Option<usize>], number: usize) -> Option<usize>
    ensures { result ≡ parent_in parents.now number }
{
    *parents.get(number)?
}

// The shortcut of the thing of this number.
fn shortcut_at(shortcuts: &[Option<Shortcut>], number: usize) -> Option<Shortcut>
    ensures { result ≡ shortcut_in shortcuts.now number }
{
    *shortcuts.get(number)?
}

// How deep the thing of this number stands.
fn depth_at(shortcuts: &[Option<Shortcut>], number: usize) -> usize
    ensures { result ≡ depth_in shortcuts.now number }
{
    match shortcut_at(shortcuts, number) {
        Some(shortcut) => shortcut.depth,
        None => 0,
    }
}

fn root_at(up: &[Option<usize>], shortcuts: &[Option<Shortcut>], number: usize) -> Option<usize>
    requires { AreShortcuts up.now shortcuts.now }
    ensures { IfSome result (EndsAt up.now number) }
{
    let shortcut = shortcut_at(shortcuts, number)?;
    Some(shortcut.root)
}

// Whether a climb from the first thing comes to the other one, if the first one has a shortcut.
fn climb(
    up: &[Option<usize>],
    shortcuts: &[Option<Shortcut>],
    number: usize,
    other: usize,
) -> Option<bool>
    requires { AreShortcuts up.now shortcuts.now }
    ensures { IfSome result (TellsLine up.now number other) }
{
    match shortcut_at(shortcuts, number) {
        None => None,
        Some(_) => Some(highest(up, shortcuts, number, other) == other),
    }
}

// The first thing on a way up from the one thing that stands no deeper than the other one.
fn highest(
    up: &[Option<usize>],
    shortcuts: &[Option<Shortcut>],
    number: usize,
    other: usize,
) -> usize
    requires are { AreShortcuts up.now shortcuts.now }
    requires known { HasShortcut shortcuts.now number }
    ensures { (result ≡ other) ↔ Reaches up.now number other }
{
    let mut here = number;
    while depth_at(shortcuts, other) < depth_at(shortcuts, here) {
        here = step_up(up, shortcuts, here, other);
    }
    here
}

// The next thing on such a way: the jump where that doesn't lead past the other one.
fn step_up(up: &[Option<usize>], shortcuts: &[Option<Shortcut>], here: usize, other: usize) -> usize
    requires are { AreShortcuts up.now shortcuts.now }
    requires deeper { depth_in shortcuts.now other < depth_in shortcuts.now here }
    ensures { StepsUp up.now shortcuts.now here other result }
{
    let jump = jump_at(shortcuts, here);
    if depth_at(shortcuts, other) <= depth_at(shortcuts, jump) {
        jump
    } else {
        match parent_in(up, here) {
            Some(parent) => parent,
            None => here,
        }
    }
}

fn jump_at(shortcuts: &[Option<Shortcut>], number: usize) -> usize
    ensures { result ≡ jump_in shortcuts.now number }
{
    match shortcut_at(shortcuts, number) {
        Some(shortcut) => shortcut.jump,
        None => number,
    }
}

// The shortcuts of those of the things that have others above them in the order.
fn shortcuts_along(
    alloc: Global,
    up: &[Option<usize>],
    order: &[usize],
) -> Result<Vec<Option<Shortcut>>, AllocError>
    ensures { IfOk result (λ shortcuts. AreShortcuts up.now shortcuts.items) }
{
    let mut shortcuts = no_shortcuts(alloc, up.len())?;
    for number in order {
        note_shortcut(up, &mut shortcuts, *number);
    }
    Ok(shortcuts)
}

fn no_shortcuts(alloc: Global, count: usize) -> Result<Vec<Option<Shortcut>>, AllocError>
    ensures { IfOk result (λ shortcuts. shortcuts.items ≡ replicate count None) }
{
    let mut shortcuts = Vec::new(alloc);
    for _ in 0..count {
        shortcuts.push(None)?;
    }
    Ok(shortcuts)
}

// Writes down the shortcut of the thing of this number, if it has none.
fn note_shortcut(up: &[Option<usize>], shortcuts: &mut Vec<Option<Shortcut>>, number: usize)
    requires { AreShortcuts up.now shortcuts.old.items }
    ensures { AreShortcuts up.now shortcuts.new.items }
{
    let found = found_shortcut(up, shortcuts.as_slice(), number);
    put_shortcut(shortcuts, number, found);
}

fn put_shortcut(shortcuts: &mut Vec<Option<Shortcut>>, number: usize, found: Option<Shortcut>)
    ensures { shortcuts.new.items ≡ with_shortcut shortcuts.old.items number found }
{
    if number < shortcuts.len() && shortcut_at(shortcuts.as_slice(), number).is_none() {
        shortcuts[number] = found;
    }
}

// The shortcut of the thing of this number, if what it stands under has one.
fn found_shortcut(
    up: &[Option<usize>],
    shortcuts: &[Option<Shortcut>],
    number: usize,
) -> Option<Shortcut>
    requires { AreShortcuts up.now shortcuts.now }
    ensures { IfSome result (IsShortcut up.now shortcuts.now number) }
{
    let under = standing_under(up, number)?;
    shortcut_by(up, shortcuts, number, under)
}

// What the thing of this number stands under, if there is the thing.
fn standing_under(up: &[Option<usize>], number: usize) -> Option<Option<usize>>
    ensures { result ≡ slice_get up.now number }
{
    Some(*up.get(number)?)
}

// The shortcut of a thing that stands under this, if that has one, or under nothing.
fn shortcut_by(
    up: &[Option<usize>],
    shortcuts: &[Option<Shortcut>],
    number: usize,
    under: Option<usize>,
) -> Option<Shortcut>
    requires { AreShortcuts up.now shortcuts.now }
    ensures { IfSome result (λ shortcut. GoesOn up.now shortcuts.now number shortcut (Some under)) }
{
    match under {
        None => Some(Shortcut {
            depth: 0,
            jump: number,
            root: number,
        }),
        Some(parent) => shortcut_under(up, shortcuts, parent),
    }
}

// The shortcut of what stands under this thing.
fn shortcut_under(
    up: &[Option<usize>],
    shortcuts: &[Option<Shortcut>],
    parent: usize,
) -> Option<Shortcut>
    requires { AreShortcuts up.now shortcuts.now }
    ensures { IfSome result (GoesOver up.now shortcuts.now parent) }
{
    let above = shortcut_at(shortcuts, parent)?;
    let depth = deeper(above.depth, up.len());
    let jump = jump_under(shortcuts, parent);
    let root = above.root;
    Some(Shortcut { depth, jump, root })
}

// The depth of what stands under a thing of this depth, where there are so many things.
fn deeper(depth: usize, count: usize) -> usize
    requires { depth < count }
    ensures { result ≡ depth + 1 }
{
    depth + 1
}

// The jump of what stands under this thing. It goes over two jumps that are equally long, and over one step else, by which
// a climb along jumps and steps takes a number of them that is logarithmic in the depth.
fn jump_under(shortcuts: &[Option<Shortcut>], parent: usize) -> usize
    ensures { JumpsUp shortcuts.now parent result }
{
    let first = jump_at(shortcuts, parent);
    let second = jump_at(shortcuts, first);
    let here = depth_at(shortcuts, parent);
    let halfway = depth_at(shortcuts, first);
    let there = depth_at(shortcuts, second);
    if here.saturating_sub(halfway) == halfway.saturating_sub(there) {
        second
    } else {
        parent
    }
}
