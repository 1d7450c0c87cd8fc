//! Laws of files with their includes.

ghost use Rattle.nddl_parser.specs.Laws.{FilesHaveOneOutcome, ReadsFiles};

use super::reader::TextReader;

/// A law: where each text is read in one way, and the shelf tells its files, a file is read in one way with those that
/// it includes.
pub fn files_are_read_in_one_way<R: TextReader>()
    ensures { (reader : R) → FilesHaveOneOutcome (R.reads reader) }
{}

/// A law: the file that is asked for is the first that is read, no file is read twice, and whatever is included is read,
/// but for what is built in.
pub fn what_is_included_is_read_once<R: TextReader>()
    ensures { (reader : R) → ReadsFiles (R.reads reader) }
{}
