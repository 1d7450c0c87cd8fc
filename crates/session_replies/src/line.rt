//! Single lines.

ghost use Rattle.std.specs.Prelude.{◌≡◌, IfOk, string_bytes};
ghost use Rattle.session_replies.specs.Texts.{printed_line};

use eu_name::bytes::Bytes;
use std::alloc::AllocError;

/// The line with its line feed.
pub fn one_line(mut line: String) -> Result<Bytes, AllocError>
    ensures { IfOk result (λ text. text ≡ printed_line (string_bytes line)) }
{
    line.push('\n')?;
    Ok(Bytes::from_vec(line.into_bytes()))
}
