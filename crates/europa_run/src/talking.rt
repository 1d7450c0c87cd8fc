//! The session of a script.

ghost use Rattle.std.specs.Prelude.{◌≡◌};
ghost use Rattle.eu_io.specs.Faults.{counted, NoneAfter};
ghost use Rattle.europa_run.specs.Steps.{EditTells, ended_by};
ghost use Rattle.session_loop.specs.Ends.{is_read_fault, is_write_fault};

use eu_io::sink::Sink;
use eu_io::source::Source;
use plan_db::Db;
use plan_db::release::discard;
use run_commands::RunEnd;
use session_core::Editor;
use session_loop::fault::SessionFault;
use session_loop::talk::{SessionEnd, session};
use std::alloc::Global;

/// Answers the input's lines over the database.
pub fn talk<S: Source, O: Sink>(
    alloc: Global,
    db: Db,
    input: &mut S,
    out: &mut O,
) -> Result<RunEnd, SessionFault>
    ensures told { EditTells db.database (record { left = S.left input.old; written = O.written out.old })
        (record { left = S.left input.new; written = O.written out.new }) result }
    ensures reads { S.faults input.new ≡ counted (is_read_fault result) (S.faults input.old) }
    ensures writes { O.faults out.new ≡ counted (is_write_fault result) (O.faults out.old) }
    ensures last_read { NoneAfter (is_read_fault result) (S.has_failed input.new) }
    ensures last_write { NoneAfter (is_write_fault result) (O.has_failed out.new) }
{
    match Editor::new(alloc, db) {
        Ok(editor) => edit_new(alloc, editor, input, out),
        Err(_none) => Err(SessionFault::Memory),
    }
}

// Answers the input's lines by this editor, and lets its database go.
fn edit_new<S: Source, O: Sink>(
    alloc: Global,
    editor: Editor,
    input: &mut S,
    out: &mut O,
) -> Result<RunEnd, SessionFault>
    ensures told { EditTells editor (record { left = S.left input.old; written = O.written out.old })
        (record { left = S.left input.new; written = O.written out.new }) result }
    ensures reads { S.faults input.new ≡ counted (is_read_fault result) (S.faults input.old) }
    ensures writes { O.faults out.new ≡ counted (is_write_fault result) (O.faults out.old) }
    ensures last_read { NoneAfter (is_read_fault result) (S.has_failed input.new) }
    ensures last_write { NoneAfter (is_write_fault result) (O.has_failed out.new) }
{
    let mut editor = editor;
    let ended = edit(alloc, &mut editor, input, out);
    discard(editor.into_db());
    ended
}

// Answers the input's lines by the editor, which has the database then.
fn edit<S: Source, O: Sink>(
    alloc: Global,
    editor: &mut Editor,
    input: &mut S,
    out: &mut O,
) -> Result<RunEnd, SessionFault>
    ensures told { EditTells editor.old (record { left = S.left input.old; written = O.written out.old })
        (record { left = S.left input.new; written = O.written out.new }) result }
    ensures reads { S.faults input.new ≡ counted (is_read_fault result) (S.faults input.old) }
    ensures writes { O.faults out.new ≡ counted (is_write_fault result) (O.faults out.old) }
    ensures last_read { NoneAfter (is_read_fault result) (S.has_failed input.new) }
    ensures last_write { NoneAfter (is_write_fault result) (O.has_failed out.new) }
{
    let end = session(alloc, editor, input, out);
    ended_by(end)
}

// How a script ends whose session ended so.
fn ended_by(end: Result<SessionEnd, SessionFault>) -> Result<RunEnd, SessionFault>
    ensures { result ≡ ended_by end }
{
    match end {
        Ok(SessionEnd::OfInput) => Ok(RunEnd::Done),
        Ok(SessionEnd::ByAnswer) => Ok(RunEnd::Done),
        Err(SessionFault::LinesSpent) => Ok(RunEnd::LinesSpent),
        Err(fault) => Err(fault),
    }
}
