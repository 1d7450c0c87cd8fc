//! Requests that the program's words write.

ghost use Rattle.std.specs.Prelude.{◌≡◌, ◌∷◌, IfOk, MatchOption, map, All, codes};
ghost use Rattle.std.specs.Str.{IsUtf8};
ghost use Rattle.run_words.specs.Requests.{Asks, AreNoCommand, Answers, IsPlanOf, IsNoPlan, IsNoVerb, told_request, verb_word};

use super::division::{PlanWords, plan_words, single_operand, two_operands};
use super::number::{number_within, steps_of, tokens_of};
use eu_name::text::Text;
use std::alloc::{AllocError, Global};

/// A command with what it is given.
#[derive(Drop)]
pub enum Request<File> {
    /// To search for a plan of the file's problem. Without steps those of the file hold.
    Plan {
        file: File,
        steps: Option<u32>,
        tokens: u32,
    },
    /// To answer the input's lines over the problem of the file.
    Script {
        file: File,
    },
    /// To check whether the second file is a plan of the first one's problem.
    Check {
        file: File,
        plan: File,
    },
    /// To print the file in the canonical spelling.
    Show {
        file: File,
    },
    /// To print the generated problem of this number.
    Generate {
        number: u32,
    },
    /// To generate the problem of this number, and to search for a plan and check it.
    Try {
        number: u32,
    },
}

/// The first word of each command.
#[derive(Clone, Copy)]
enum Verb {
    Plan,
    Script,
    Check,
    Show,
    Generate,
    Try,
}

/// What the words after the program's name ask for. None where they are no command line.
pub fn read_words(alloc: Global, words: &[Text]) -> Result<Option<Request<Text>>, AllocError>
    ensures { IfOk result (λ answer. MatchOption answer (AreNoCommand words.now) (Asks words.now)) }
{
    let texts = texts_of(alloc, words)?;
    match request_of(alloc, texts.as_slice())? {
        None => Ok(None),
        Some(request) => Ok(Some(owned(alloc, request)?)),
    }
}

fn texts_of<'a>(alloc: Global, words: &'a [Text]) -> Result<Vec<&'a str>, AllocError>
    ensures { IfOk result (λ texts. (map (λ text. text.now) texts.items ≡ words.entry.now) × All (λ text. IsUtf8 text.now) texts.items) }
{
    let mut texts = Vec::new(alloc);
    for word in words {
        texts.push(word.as_str())?;
    }
    Ok(texts)
}

// The request with its files' names in memory of their own.
fn owned(alloc: Global, request: Request<&str>) -> Result<Request<Text>, AllocError>
    ensures { IfOk result (λ copied. copied ≡ told_request request.entry) }
{
    match request {
        Request::Plan {
            file,
            steps,
            tokens,
        } => Ok(Request::Plan {
            file: Text::from_str(alloc, file)?,
            steps,
            tokens,
        }),
        Request::Script { file } => Ok(Request::Script {
            file: Text::from_str(alloc, file)?,
        }),
        Request::Check { file, plan } => {
            let file = Text::from_str(alloc, file)?;
            let plan = Text::from_str(alloc, plan)?;
            Ok(Request::Check { file, plan })
        }
        Request::Show { file } => Ok(Request::Show {
            file: Text::from_str(alloc, file)?,
        }),
        Request::Generate { number } => Ok(Request::Generate { number }),
        Request::Try { number } => Ok(Request::Try { number }),
    }
}

fn request_of<'a>(
    alloc: Global,
    words: &'a [&'a str],
) -> Result<Option<Request<&'a str>>, AllocError>
    requires { All (λ word. IsUtf8 word.now) words.now }
    ensures { IfOk result (Answers (map (λ word. word.now) words.entry.now)) }
{
    let Some((word, rest)) = words.split_first() else {
        return Ok(None);
    };
    match verb_of(word) {
        Some(Verb::Plan) => plan(alloc, rest),
        Some(Verb::Script) => script(alloc, rest),
        Some(Verb::Check) => check(alloc, rest),
        Some(Verb::Show) => show(alloc, rest),
        Some(Verb::Generate) => generate(alloc, rest),
        Some(Verb::Try) => try_out(alloc, rest),
        None => Ok(None),
    }
}

fn verb_of(word: &str) -> Option<Verb>
    ensures { MatchOption result (IsNoVerb word.now) (λ verb. word.now ≡ verb_word verb) }
{
    match word.as_bytes() {
        b"plan" => Some(Verb::Plan),
        b"script" => Some(Verb::Script),
        b"check" => Some(Verb::Check),
        b"show" => Some(Verb::Show),
        b"gen" => Some(Verb::Generate),
        b"try" => Some(Verb::Try),
        _ => None,
    }
}

fn plan<'a>(alloc: Global, words: &'a [&'a str]) -> Result<Option<Request<&'a str>>, AllocError>
    requires { All (λ word. IsUtf8 word.now) words.now }
    ensures { IfOk result (Answers (codes "plan" ∷ map (λ word. word.now) words.entry.now)) }
{
    match plan_words(alloc, words)? {
        None => Ok(None),
        Some(words) => Ok(plan_request(words)),
    }
}

// The request whose parts these words are.
fn plan_request<'a>(words: PlanWords<'a>) -> Option<Request<&'a str>>
    ensures { MatchOption result (IsNoPlan words.entry) (IsPlanOf words.entry) }
{
    if words.file.is_empty() {
        return None;
    }
    let steps = steps_of(words.steps)?;
    let tokens = tokens_of(words.tokens)?;
    Some(Request::Plan {
        file: words.file,
        steps,
        tokens,
    })
}

fn script<'a>(alloc: Global, words: &'a [&'a str]) -> Result<Option<Request<&'a str>>, AllocError>
    requires { All (λ word. IsUtf8 word.now) words.now }
    ensures { IfOk result (Answers (codes "script" ∷ map (λ word. word.now) words.entry.now)) }
{
    match single_operand(alloc, "script", words)? {
        Some(file) if !file.is_empty() => Ok(Some(Request::Script { file })),
        _ => Ok(None),
    }
}

fn show<'a>(alloc: Global, words: &'a [&'a str]) -> Result<Option<Request<&'a str>>, AllocError>
    requires { All (λ word. IsUtf8 word.now) words.now }
    ensures { IfOk result (Answers (codes "show" ∷ map (λ word. word.now) words.entry.now)) }
{
    match single_operand(alloc, "show", words)? {
        Some(file) if !file.is_empty() => Ok(Some(Request::Show { file })),
        _ => Ok(None),
    }
}

fn check<'a>(alloc: Global, words: &'a [&'a str]) -> Result<Option<Request<&'a str>>, AllocError>
    requires { All (λ word. IsUtf8 word.now) words.now }
    ensures { IfOk result (Answers (codes "check" ∷ map (λ word. word.now) words.entry.now)) }
{
    match two_operands(alloc, "check", words)? {
        Some((file, plan)) if !file.is_empty() && !plan.is_empty() => Ok(Some(Request::Check {
            file,
            plan,
        })),
        _ => Ok(None),
    }
}

fn generate<'a>(alloc: Global, words: &'a [&'a str]) -> Result<Option<Request<&'a str>>, AllocError>
    requires { All (λ word. IsUtf8 word.now) words.now }
    ensures { IfOk result (Answers (codes "gen" ∷ map (λ word. word.now) words.entry.now)) }
{
    let Some(text) = single_operand(alloc, "gen", words)? else {
        return Ok(None);
    };
    match number_within(text, 1, 200) {
        Some(number) => Ok(Some(Request::Generate { number })),
        None => Ok(None),
    }
}

fn try_out<'a>(alloc: Global, words: &'a [&'a str]) -> Result<Option<Request<&'a str>>, AllocError>
    requires { All (λ word. IsUtf8 word.now) words.now }
    ensures { IfOk result (Answers (codes "try" ∷ map (λ word. word.now) words.entry.now)) }
{
    let Some(text) = single_operand(alloc, "try", words)? else {
        return Ok(None);
    };
    match number_within(text, 1, 200) {
        Some(number) => Ok(Some(Request::Try { number })),
        None => Ok(None),
    }
}
