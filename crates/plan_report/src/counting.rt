//! Counts the tokens of a plan by what becomes of them.

ghost use Rattle.std.specs.Prelude.{◌≡◌, ◌<◌, ◌≤◌, ◌^◌, ◌++◌, length, count_by, OnOk};
ghost use Rattle.std.specs.Fmt.{decimal};
ghost use Rattle.plan_report.specs.Counting.{is_active, is_merged, AreCounts, counts_text};

use itoa::Buffer;
use plan_defs::plan::{Line, Plan};
use plan_text::writing::put_word;
use std::alloc::AllocError;

/// How many tokens of a plan take place, facts included, and how many are merged into another one.
#[derive(Clone, Copy, Debug, PartialEq, Eq)]
pub struct Counts {
    pub active: u32,
    pub merged: u32,
}

// Whether the line says that its token takes place.
fn is_active(line: &Line) -> bool
    ensures { result ≡ is_active line.now }
{
    match line {
        Line::Token { .. } => true,
        Line::Merged { .. } | Line::Rejected { .. } | Line::Local { .. } => false,
    }
}

// Whether the line says that its token is another one.
fn is_merged(line: &Line) -> bool
    ensures { result ≡ is_merged line.now }
{
    match line {
        Line::Merged { .. } => true,
        Line::Token { .. } | Line::Rejected { .. } | Line::Local { .. } => false,
    }
}

// How many lines say that their token takes place.
fn count_active(lines: &[Line]) -> u32
    requires { length lines.now < 2 ^ 32 }
    ensures { result ≡ count_by is_active lines.now }
{
    lines.iter().filter(|line| is_active(line)).count() as u32
}

// How many lines say that their token is another one.
fn count_merged(lines: &[Line]) -> u32
    requires { length lines.now < 2 ^ 32 }
    ensures { result ≡ count_by is_merged lines.now }
{
    lines.iter().filter(|line| is_merged(line)).count() as u32
}

/// How many tokens of the plan take place, and how many are merged.
pub fn count_lines(plan: &Plan) -> Counts
    requires { length plan.now.lines < 2 ^ 32 }
    ensures { AreCounts plan.now result }
{
    let lines = plan.lines.as_slice();
    Counts {
        active: count_active(lines),
        merged: count_merged(lines),
    }
}

// Writes the number behind the word.
fn put_count(out: &mut Vec<u8>, word: &[u8], count: u32) -> Result<(), AllocError>
    ensures { OnOk result (out.new.items ≡ out.old.items ++ (word.now ++ decimal count)) }
{
    let mut buffer = Buffer::new();
    put_word(out, word, buffer.format(count).as_bytes())
}

/// Writes the two lines that say the counts.
pub fn put_counts(out: &mut Vec<u8>, counts: Counts) -> Result<(), AllocError>
    ensures { OnOk result (out.new.items ≡ out.old.items ++ counts_text counts) }
{
    put_count(out, b"active ", counts.active)?;
    put_count(out, b"\nmerged ", counts.merged)?;
    out.push(b'\n')?;
    Ok(())
}
