//! Lines of a script, and what they ask for.

ghost use Rattle.std.specs.Prelude.{◌∷◌, codes};
ghost use Rattle.script_lang.specs.Words.{words_of};
ghost use Rattle.script_lang.specs.Line.{AnswersWords, ReadsLine};
ghost use Rattle.script_lang.specs.Verbs.{verb_word};

use super::numbers::bounds;
use super::operands::{
    constraint_said, name_and_value, no_word, one_name, relation_said, two_names,
};
use super::verb::{Verb, verb_of};
use crate::command::{Command, LineFault};
use crate::words::{next_word, only_word};
use std::alloc::Global;

/// The most bytes that a line may have, without its line feed.
pub const LINE_LIMIT: usize = 4096;

// What `reset` asks for before these words: one name, or two.
fn read_reset(alloc: Global, rest: &[u8]) -> Result<Command, LineFault>
    ensures { AnswersWords (codes "reset" ∷ words_of rest.now) result }
{
    match only_word(rest) {
        Some(_word) => one_name(alloc, rest).map(|subject| Command::Reset { subject }),
        None => two_names(alloc, rest).map(|(first, second)| Command::ResetOrder { first, second }),
    }
}

// What `post` asks for before these words.
fn read_post(alloc: Global, rest: &[u8]) -> Result<Command, LineFault>
    ensures { AnswersWords (codes "post" ∷ words_of rest.now) result }
{
    constraint_said(alloc, rest).map(|(kind, arguments)| Command::Post { kind, arguments })
}

// What `relate` asks for before these words.
fn read_relate(alloc: Global, rest: &[u8]) -> Result<Command, LineFault>
    ensures { AnswersWords (codes "relate" ∷ words_of rest.now) result }
{
    relation_said(alloc, rest).map(|(relation, (first, second))| Command::Relate {
        relation,
        first,
        second,
    })
}

// What `withdraw` asks for before these words.
fn read_withdraw(alloc: Global, rest: &[u8]) -> Result<Command, LineFault>
    ensures { AnswersWords (codes "withdraw" ∷ words_of rest.now) result }
{
    constraint_said(alloc, rest).map(|(kind, arguments)| Command::Withdraw { kind, arguments })
}

// What `unrelate` asks for before these words.
fn read_unrelate(alloc: Global, rest: &[u8]) -> Result<Command, LineFault>
    ensures { AnswersWords (codes "unrelate" ∷ words_of rest.now) result }
{
    relation_said(alloc, rest).map(|(relation, (first, second))| Command::Unrelate {
        relation,
        first,
        second,
    })
}

// What the verb asks for before these words.
fn read_command(alloc: Global, verb: Verb, rest: &[u8]) -> Result<Command, LineFault>
    ensures { AnswersWords (verb_word verb ∷ words_of rest.now) result }
{
    match verb {
        Verb::Specify => name_and_value(alloc, rest).map(|(variable, value)| Command::Specify {
            variable,
            value,
        }),
        Verb::Activate => one_name(alloc, rest).map(|token| Command::Activate { token }),
        Verb::Merge => two_names(alloc, rest).map(|(token, target)| Command::Merge {
            token,
            target,
        }),
        Verb::Reject => one_name(alloc, rest).map(|token| Command::Reject { token }),
        Verb::Order => two_names(alloc, rest).map(|(first, second)| Command::Order {
            first,
            second,
        }),
        Verb::Post => read_post(alloc, rest),
        Verb::Relate => read_relate(alloc, rest),
        Verb::Reset => read_reset(alloc, rest),
        Verb::Withdraw => read_withdraw(alloc, rest),
        Verb::Unrelate => read_unrelate(alloc, rest),
        Verb::Undo => no_word(rest).map(|()| Command::Undo),
        Verb::Domain => one_name(alloc, rest).map(|variable| Command::Domain { variable }),
        Verb::Tokens => no_word(rest).map(|()| Command::Tokens),
        Verb::Decisions => no_word(rest).map(|()| Command::Decisions),
        Verb::Flaws => no_word(rest).map(|()| Command::Flaws),
        Verb::Solve => match bounds(rest) {
            Some((steps, tokens)) => Ok(Command::Solve { steps, tokens }),
            None => Err(LineFault::Syntax),
        },
        Verb::Why => no_word(rest).map(|()| Command::Why),
        Verb::Cycle => no_word(rest).map(|()| Command::Cycle),
        Verb::Quit => no_word(rest).map(|()| Command::Quit),
    }
}

// What the words of a line ask for.
fn read_words(alloc: Global, line: &[u8]) -> Result<Command, LineFault>
    ensures { AnswersWords (words_of line.now) result }
{
    let Some((first, rest)) = next_word(line) else {
        return Ok(Command::Empty);
    };
    match verb_of(first) {
        Some(verb) => read_command(alloc, verb, rest),
        None => Err(LineFault::Syntax),
    }
}

/// Reads a line without its line feed. A line that is too long is not looked at.
pub fn read_line(alloc: Global, line: &[u8]) -> Result<Command, LineFault>
    ensures { ReadsLine line.now result }
{
    if line.len() > LINE_LIMIT {
        return Err(LineFault::TooLong);
    }
    read_words(alloc, line)
}
