//! Laws of sessions.

ghost use Rattle.session_loop.specs.Laws.{HasOneSession, HasSomeSession, WritesFront, TellsFront};

use super::reply::Responder;

/// Where each line has one reply, the session of the same lines is one.
pub fn session_is_one<T: Responder>()
    ensures { HasOneSession T.answers }
{}

/// Where each line has some reply, lines have a session, and so an output.
pub fn lines_have_a_session<T: Responder>()
    ensures { HasSomeSession T.answers }
{}

/// Where each line has one reply, what a session wrote before a fault comes first in its whole output.
pub fn fault_writes_front<T: Responder>()
    ensures { WritesFront T.answers }
{}

/// Where each line has one reply, and input and output are told, what was written before a fault comes first in the
/// output of the lines of that input.
pub fn fault_tells_front<T: Responder>()
    ensures { TellsFront T.answers }
{}
