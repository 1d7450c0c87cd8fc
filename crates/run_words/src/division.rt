//! Words behind a command's word, which a `clap` command for it divides into operands and the values of options.

ghost use Rattle.std.specs.Prelude.{◌≡◌, ◌∷◌, [], IfOk, MatchOption, map, true, false, All, Some, None, codes};
ghost use Rattle.std.specs.Str.{IsUtf8};
ghost use Rattle.clap.specs.Walk.{rule_of, rows_of};
ghost use Rattle.clap.specs.Simple.{app_of, matches_of, with_rule};
ghost use Rattle.clap.specs.Faults.{fault_of, is_simple_and_free};
ghost use Rattle.clap.specs.Matches.{first_value, found_of};
ghost use Rattle.run_words.specs.Words.{HasOperands, HasNoOperands, HasNoPair, HasPlanWords, HasNoPlanWords};
ghost use Rattle.run_words.specs.Requests.{told};
ghost use Rattle.run_words.specs.Commands.{Planned, app_for, bare_app, HasNoTwo, operand_rule, option_rule};

use clap::error::ErrorKind;
use clap::{Arg, ArgMatches, Command};
use std::alloc::{AllocError, Global};

/// Operand and options behind `plan`.
#[derive(Clone, Copy)]
pub struct PlanWords<'a> {
    pub file: &'a str,
    pub steps: Option<&'a str>,
    pub tokens: Option<&'a str>,
}

/// The one operand that there is; None where the words are anything else.
pub fn single_operand<'a>(
    alloc: Global,
    name: &'a str,
    words: &'a [&'a str],
) -> Result<Option<&'a str>, AllocError>
    requires { All (λ word. IsUtf8 word.now) words.now }
    ensures { IfOk result (λ answer. MatchOption answer (HasNoOperands (map (λ word. word.now) words.entry.now))
        (λ operand. HasOperands (map (λ word. word.now) words.entry.now) (operand.now ∷ []))) }
{
    let command = with_operand(alloc, bare_command(alloc, name), "first")?;
    match matched(command, words)? {
        Some(matches) => Ok(matches.get_str("first")),
        None => Ok(None),
    }
}

/// The two operands that there are; None where the words are anything else.
pub fn two_operands<'a>(
    alloc: Global,
    name: &'a str,
    words: &'a [&'a str],
) -> Result<Option<(&'a str, &'a str)>, AllocError>
    requires { All (λ word. IsUtf8 word.now) words.now }
    ensures { IfOk result (λ answer. MatchOption answer (HasNoPair (map (λ word. word.now) words.entry.now))
        (λ pair. HasOperands (map (λ word. word.now) words.entry.now) (pair.0.now ∷ pair.1.now ∷ []))) }
{
    let command = with_operand(alloc, bare_command(alloc, name), "first")?;
    let command = with_operand(alloc, command, "second")?;
    match matched(command, words)? {
        Some(matches) => Ok(pair_of(&matches)),
        None => Ok(None),
    }
}

fn pair_of<'a>(matches: &ArgMatches<'a>) -> Option<(&'a str, &'a str)>
    ensures { MatchOption result (HasNoTwo (found_of matches.now)) (λ pair. (first_value (found_of matches.now) (codes "first") ≡ Some pair.0.now)
        × (first_value (found_of matches.now) (codes "second") ≡ Some pair.1.now)) }
{
    let first = matches.get_str("first")?;
    let second = matches.get_str("second")?;
    Some((first, second))
}

/// The one operand that there is, with the options; None where the words are anything else.
pub fn plan_words<'a>(
    alloc: Global,
    words: &'a [&'a str],
) -> Result<Option<PlanWords<'a>>, AllocError>
    requires { All (λ word. IsUtf8 word.now) words.now }
    ensures { IfOk result (λ answer. MatchOption answer (HasNoPlanWords (map (λ word. word.now) words.entry.now))
        (λ plan. HasPlanWords (map (λ word. word.now) words.entry.now) plan.file.now (told plan.steps) (told plan.tokens))) }
{
    let command = plan_command(alloc)?;
    match matched(command, words)? {
        Some(matches) => Ok(plan_of(&matches)),
        None => Ok(None),
    }
}

fn plan_command<'a>(alloc: Global) -> Result<Command<'a>, AllocError>
    ensures { IfOk result (λ command. app_of command ≡ app_for Planned (codes "plan")) }
{
    let command = with_option(alloc, bare_command(alloc, "plan"), "steps")?;
    let command = with_option(alloc, command, "tokens")?;
    with_operand(alloc, command, "first")
}

// The command with one more option. That the argument is made here keeps it from living where another one may fail.
fn with_option<'a>(
    alloc: Global,
    command: Command<'a>,
    id: &'a str,
) -> Result<Command<'a>, AllocError>
    ensures { IfOk result (λ more. app_of more ≡ with_rule (app_of command.entry) (option_rule id.entry.now)) }
{
    command.arg(option_with_value(alloc, id))
}

// The command with one more operand.
fn with_operand<'a>(
    alloc: Global,
    command: Command<'a>,
    id: &'a str,
) -> Result<Command<'a>, AllocError>
    ensures { IfOk result (λ more. app_of more ≡ with_rule (app_of command.entry) (operand_rule id.entry.now)) }
{
    command.arg(operand(alloc, id))
}

fn plan_of<'a>(matches: &ArgMatches<'a>) -> Option<PlanWords<'a>>
    ensures { MatchOption result (first_value (found_of matches.now) (codes "first") ≡ None)
        (λ plan. (first_value (found_of matches.now) (codes "first") ≡ Some plan.file.now)
        × (first_value (found_of matches.now) (codes "steps") ≡ told plan.steps)
        × (first_value (found_of matches.now) (codes "tokens") ≡ told plan.tokens)) }
{
    let file = matches.get_str("first")?;
    Some(PlanWords {
        file,
        steps: matches.get_str("steps"),
        tokens: matches.get_str("tokens"),
    })
}

// A command that reads every word, with neither help nor version.
fn bare_command<'a>(alloc: Global, name: &'a str) -> Command<'a>
    ensures { app_of result ≡ bare_app name.entry.now }
{
    Command::new(alloc, name)
        .no_binary_name(true)
        .disable_help_flag(true)
}

fn operand<'a>(alloc: Global, id: &'a str) -> Arg<'a>
    ensures rule { rule_of result ≡ operand_rule id.entry.now }
    ensures local { result.global ≡ false }
{
    Arg::new(alloc, id).required(true)
}

fn option_with_value<'a>(alloc: Global, id: &'a str) -> Arg<'a>
    ensures rule { rule_of result ≡ option_rule id.entry.now }
    ensures local { result.global ≡ false }
{
    Arg::new(alloc, id).long(id)
}

// The matches of the words; None where the command doesn't take them.
fn matched<'a>(
    command: Command<'a>,
    words: &'a [&'a str],
) -> Result<Option<ArgMatches<'a>>, AllocError>
    requires { is_simple_and_free (app_of command) ≡ true }
    ensures { IfOk result (λ answer. MatchOption answer
        (fault_of (app_of command.entry) (map (λ word. word.now) words.entry.now) ≡ [] → ⊥)
        (λ matches. (fault_of (app_of command.entry) (map (λ word. word.now) words.entry.now) ≡ [])
        × (rows_of (found_of matches) ≡ matches_of (app_of command.entry) (map (λ word. word.now) words.entry.now)))) }
{
    match command.try_get_matches_from(words) {
        Ok(matches) => Ok(Some(matches)),
        Err(error) => {
            if error.kind() == ErrorKind::OutOfMemory {
                return Err(AllocError);
            }
            Ok(None)
        }
    }
}
