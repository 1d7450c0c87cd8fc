//! A law of sessions in which no line can be without an answer.

ghost use Rattle.session_loop.specs.Existence.{CantLackASession};

use super::reply::Responder;

/// Where it can't be that a line has no answer, whatever the responder comes to, it can't be that lines have no session.
pub fn lines_cant_lack_a_session<T: Responder>()
    ensures { CantLackASession T.answers }
{}
