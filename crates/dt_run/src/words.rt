ghost use Rattle.std.specs.Prelude.{◌≡◌, ◌≢◌, IfOk, IfNone, None, map, option_map, string_bytes};
ghost use Rattle.clap.specs.Words.{app_of, found_of, kind_of, rows_of};
ghost use Rattle.clap.specs.declared.error.kind.ErrorKind.TheVariants.{OutOfMemory};
ghost use Rattle.dt_run.specs.Words.{LacksScript, TakesPlainWords, all_asked, dtq, is_checked};
ghost use Rattle.dt_run.specs.Words.{rows_asked, with_name};
ghost use Rattle.dt_run.specs.Given.{meant, texts};

use clap::error::ErrorKind;
use clap::{Arg, ArgAction, ArgMatches, Command, Error};
use std::alloc::{AllocError, Global};

/// What the words ask for.
#[derive(Clone, Copy)]
pub struct Asked<'a> {
    /// The name of the script.
    pub script: &'a str,
    /// Whether it is only read.
    pub is_check: bool,
}

/// A word that is not empty and does not begin with `-` asks for that script, alone and behind
/// `--check`. It does nothing; its contract is the law.
pub fn takes_plain_words()
    ensures { TakesPlainWords }
{}

/// The words with the program's name before them, which the command wants first.
pub fn named_words<'a>(alloc: Global, words: &'a [String]) -> Result<Vec<&'a str>, AllocError>
    ensures { IfOk result (λ v. texts v.items ≡ with_name (map string_bytes words.now)) }
{
    let mut all = Vec::new(alloc);
    all.push("dtq")?;
    for word in words {
        all.push(word.as_str())?;
    }
    Ok(all)
}

/// The command: an optional SCRIPT, and the flag `--check`.
fn command<'a>(alloc: Global) -> Result<Command<'a>, AllocError>
    ensures { IfOk result (λ c. app_of c ≡ dtq) }
{
    let script = Arg::new(alloc, "script");
    let check = Arg::new(alloc, "check")
        .long("check")
        .action(ArgAction::SetTrue);
    Command::new(alloc, "dtq").arg(script)?.arg(check)
}

/// Whether the value of a flag tells that it was given.
fn is_on(value: Option<&str>) -> bool
    ensures { result ≡ is_checked (option_map (λ s. s.now) value.entry) }
{
    match value {
        Some(text) => text == "true",
        None => false,
    }
}

/// What the matches ask for, if they have a script.
fn asked_in<'a>(matches: &ArgMatches<'a>) -> Option<Asked<'a>>
    ensures { option_map meant result ≡ rows_asked (rows_of (found_of matches.now)) }
{
    let is_check = is_on(matches.get_str("check"));
    match matches.get_str("script") {
        Some(script) => Some(Asked { script, is_check }),
        None => None,
    }
}

/// What refused words ask for: nothing, unless memory was wanting.
fn nothing_asked<'a>(error: &Error) -> Result<Option<Asked<'a>>, AllocError>
    ensures { IfOk result (λ o. (o ≡ None) × (kind_of error.now ≢ OutOfMemory)) }
{
    if error.kind() == ErrorKind::OutOfMemory {
        Err(AllocError)
    } else {
        Ok(None)
    }
}

/// What all the words ask for, the program's name being the first. It is nothing exactly where the
/// command does not take them, or where they have no SCRIPT.
pub fn asked_by<'a>(alloc: Global, words: &'a [&'a str]) -> Result<Option<Asked<'a>>, AllocError>
    ensures asked { IfOk result (λ o. option_map meant o ≡ all_asked (texts words.now)) }
    ensures lacks { IfOk result (λ o. IfNone o (LacksScript (texts words.now))) }
{
    let command = command(alloc)?;
    match command.try_get_matches_from(words) {
        Ok(matches) => Ok(asked_in(&matches)),
        Err(error) => nothing_asked(&error),
    }
}
