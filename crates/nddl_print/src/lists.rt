//! Lists of parts, one after another or with separators between them.

ghost use Rattle.std.specs.Prelude.{◌≡◌, ◌++◌, OnOk};
ghost use Rattle.nddl_print.specs.Words.{spaced};
ghost use Rattle.nddl_print.specs.Canonical.{many_words, following_words, listed_words};

use super::line::Lines;
use nddl_grammar::sort::Sort;
use std::alloc::AllocError;

/// What can be printed.
pub trait Print {
    ghost use Rattle.std.specs.Prelude.{◌≡◌, ◌++◌, List, OnOk};
    ghost use Rattle.nddl_print.specs.Words.{Word, spaced};

    ghost words: { Self → List Word };

    /// Writes its words behind what is there.
    fn print(&self, lines: &mut Lines) -> Result<(), AllocError>
        ensures { OnOk result (lines.new ≡ lines.old ++ spaced (words self.now)) };
}

/// Items, one after another.
pub fn print_many<T: Print>(items: &[T], lines: &mut Lines) -> Result<(), AllocError>
    ensures { OnOk result (lines.new ≡ lines.old ++ spaced (many_words T.words items.now)) }
{
    for item in items {
        item.print(lines)?;
    }
    Ok(())
}

/// Items, each behind a separator.
pub fn print_following<T: Print>(
    items: &[T],
    separator: Sort,
    lines: &mut Lines,
) -> Result<(), AllocError>
    ensures { OnOk result (lines.new ≡ lines.old ++ spaced (following_words separator T.words items.now)) }
{
    for item in items {
        lines.fixed(separator)?;
        item.print(lines)?;
    }
    Ok(())
}

/// Items with commas between them.
pub fn print_listed<T: Print>(items: &[T], lines: &mut Lines) -> Result<(), AllocError>
    ensures { OnOk result (lines.new ≡ lines.old ++ spaced (listed_words T.words items.now)) }
{
    match items.split_first() {
        None => Ok(()),
        Some((first, rest)) => {
            first.print(lines)?;
            print_following(rest, Sort::Comma, lines)
        }
    }
}
