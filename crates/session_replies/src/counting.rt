//! Numbers, ends of lines, and the line that says how many lines follow.

ghost use Rattle.std.specs.Prelude.{◌≡◌, ◌++◌, ◌∷◌, [], OnOk, codes};
ghost use Rattle.std.specs.Fmt.{decimal};
ghost use Rattle.session_replies.specs.Lines.{with_line_feed};

use itoa::Buffer;
use plan_text::writing::put_word;
use std::alloc::AllocError;

/// The text as it stands.
pub fn put_text(out: &mut Vec<u8>, text: &[u8]) -> Result<(), AllocError>
    ensures { OnOk result (out.new.items ≡ out.old.items ++ text.now) }
{
    out.extend_from_slice(text)
}

/// The end of the line.
pub fn put_line_feed(out: &mut Vec<u8>) -> Result<(), AllocError>
    ensures { OnOk result (out.new.items ≡ out.old.items ++ 10 ∷ []) }
{
    put_text(out, b"\n")
}

/// The number, behind the gap.
pub fn put_count(out: &mut Vec<u8>, gap: &[u8], count: usize) -> Result<(), AllocError>
    ensures { OnOk result (out.new.items ≡ out.old.items ++ (gap.now ++ decimal count)) }
{
    let mut buffer = Buffer::new();
    put_word(out, gap, buffer.format(count).as_bytes())
}

/// The line of the word and the number.
pub fn put_count_line(out: &mut Vec<u8>, word: &[u8], count: usize) -> Result<(), AllocError>
    ensures { OnOk result (out.new.items ≡ out.old.items ++ with_line_feed (word.now ++ (codes " " ++ decimal count))) }
{
    put_text(out, word)?;
    put_count(out, b" ", count)?;
    put_line_feed(out)
}
