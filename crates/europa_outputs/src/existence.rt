//! Laws: what can't be missing of files, commands and runs. The logic decides nothing that no code decides, so each says that the
//! contrary isn't so.

ghost use Rattle.europa_outputs.specs.Outputs.{FilesPose, CommandsHaveOutputs, WordsHaveAnOutput};

use run_load::laws::posed_databases_are_sound;

/// A file poses a database, or something is wrong with it or those that it includes first, unless these have no verdict.
pub fn files_pose_databases_or_faults()
    ensures { FilesPose }
{}

/// What is asked for that is no script has an output, unless the files that are read for it have no verdict.
pub fn commands_have_outputs()
    ensures { CommandsHaveOutputs }
{
    posed_databases_are_sound();
}

/// Words have an output over any files and input, unless the files that they ask for have no verdict.
pub fn words_have_an_output()
    ensures { WordsHaveAnOutput }
{
    posed_databases_are_sound();
}
