//! Texts with a piece that is repeated.

use super::lines::Lines;
use std::alloc::{AllocError, Global};

fn say_piece(piece: &str, number: u32, lines: &mut Lines) {
    match piece.split_once('#') {
        Some((before, after)) => {
            lines.numbered(before, number);
            lines.say(after);
        }
        None => lines.say(piece),
    }
}

fn say_pieces(piece: &str, count: u32, lines: &mut Lines) {
    for number in 0..count {
        say_piece(piece, number, lines);
    }
}

// The front, and the rest from the count on.
fn filled(alloc: Global, front: &str, rest: &str) -> Result<String, AllocError> {
    let (inside, back) = rest.split_once(">>").unwrap_or((rest, ""));
    let (count, piece) = inside.split_once(' ').unwrap_or((inside, ""));
    let mut lines = Lines::new(alloc);
    lines.say(front);
    say_pieces(piece, count.parse().unwrap_or(0), &mut lines);
    lines.say(back);
    lines.into_text()
}

/// The text, with the piece so many times in place of `<<COUNT PIECE>>`, where it has such a place. A `#` in the piece is the
/// number of it, from 0.
pub fn repeated(alloc: Global, text: &str) -> Result<String, AllocError> {
    match text.split_once("<<") {
        Some((front, rest)) => filled(alloc, front, rest),
        None => String::from_str(alloc, text),
    }
}
