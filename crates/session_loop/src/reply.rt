//! What answers the lines of a session.

use eu_name::bytes::Bytes;
use std::alloc::AllocError;

/// What is answered to a line.
#[derive(Drop)]
pub struct Answer {
    /// All that is written, each line of it with its line feed.
    pub reply: Bytes,
    /// Whether the session goes on behind it.
    pub goes_on: bool,
}

/// What answers lines, one after another.
pub trait Responder {
    ghost use Rattle.std.specs.Prelude.{ℕ, List, IfOk, OnErr, take};
    ghost use Rattle.session_loop.specs.declared.reply.Answer.{Answer};
    ghost use Rattle.session_loop.specs.Answering.{LeavesUnanswered};

    /// The responder may answer this line so, and is then the second.
    ghost answers: { Self → List ℕ → Answer → Self → Type 0 };

    /// Answers a line, given without its line feed.
    fn answer(&mut self, line: &[u8]) -> Result<Answer, AllocError>
        ensures answer { IfOk result (λ answer. answers self.old line.now answer self.new) }
        ensures memory { OnErr result (LeavesUnanswered answers self.old line.now self.new) };

    /// Of a line only the first 4,097 bytes matter, so a longer one need not be kept whole.
    ghost reads_front: { (old : Self) (line : List ℕ) (answer : Answer) (new : Self)
        → answers old (take 4097 line) answer new → answers old line answer new };
}
