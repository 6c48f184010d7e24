//! The command line as `clap` reads it.
ghost use Rattle.std.specs.Prelude.{◌≡◌, ℕ, List, map, string_bytes, false, None, Ok, IfOk, IfSome};
ghost use Rattle.clap.specs.Words.{app_of, found_of, first_value, rule_of};
ghost use Rattle.sj_command.specs.CommandLine.{IsTaken, command_rule, forward_rule, line, log_rule, looks_rule, number_rule, text_given, workers_rule};

use clap::error::ErrorKind;
use clap::{Arg, ArgAction, ArgMatches, Command, Error};
use sj_base::NoMemory;
use std::alloc::{AllocError, Global};

// The name of a command.
fn command_arg<'a>(alloc: Global) -> Arg<'a>
    ensures rule { rule_of result ≡ command_rule }
    ensures local { result.global ≡ false }
{
    Arg::new(alloc, "command")
        .required(true)
        .action(ArgAction::Set)
}

// A number after it.
fn number_arg<'a>(alloc: Global) -> Arg<'a>
    ensures rule { rule_of result ≡ number_rule }
    ensures local { result.global ≡ false }
{
    Arg::new(alloc, "number").action(ArgAction::Set)
}

// The flag that asks for the log.
fn log_arg<'a>(alloc: Global) -> Arg<'a>
    ensures rule { rule_of result ≡ log_rule }
    ensures local { result.global ≡ false }
{
    Arg::new(alloc, "log")
        .long("log")
        .action(ArgAction::SetTrue)
}

// The option with the number of looks.
fn looks_arg<'a>(alloc: Global) -> Arg<'a>
    ensures rule { rule_of result ≡ looks_rule }
    ensures local { result.global ≡ false }
{
    Arg::new(alloc, "looks")
        .long("looks")
        .action(ArgAction::Set)
}

// The option with the number of workers.
fn workers_arg<'a>(alloc: Global) -> Arg<'a>
    ensures rule { rule_of result ≡ workers_rule }
    ensures local { result.global ≡ false }
{
    Arg::new(alloc, "workers")
        .long("workers")
        .action(ArgAction::Set)
}

// The flag that asks for forwarding.
fn forward_arg<'a>(alloc: Global) -> Arg<'a>
    ensures rule { rule_of result ≡ forward_rule }
    ensures local { result.global ≡ false }
{
    Arg::new(alloc, "forward")
        .long("forward")
        .action(ArgAction::SetTrue)
}

// The line whole: a command, a number, two flags and two options.
fn whole_line<'a>(alloc: Global) -> Result<Command<'a>, AllocError>
    ensures { IfOk result (λ c. app_of c ≡ line) }
{
    let line = Command::new(alloc, "sj")
        .no_binary_name(true)
        .arg(command_arg(alloc))?
        .arg(number_arg(alloc))?
        .arg(log_arg(alloc))?
        .arg(looks_arg(alloc))?
        .arg(workers_arg(alloc))?
        .arg(forward_arg(alloc))?;
    Ok(line)
}

/// What the line makes of the words. None where they break a rule of it, or ask for help.
pub(crate) fn matches_in<'a>(
    alloc: Global,
    words: &'a [String],
) -> Result<Option<ArgMatches<'a>>, NoMemory>
    ensures taken { IfOk result (λ m. IfSome m (λ _. IsTaken (map string_bytes words.entry.now))) }
    ensures given { IfOk result (λ m. IfSome m (λ a. (id : List ℕ)
        → first_value (found_of a) id ≡ text_given id (map string_bytes words.entry.now))) }
    ensures refused { result ≡ Ok None → IsTaken (map string_bytes words.entry.now) → ⊥ }
{
    let line = whole_line(alloc)?;
    match line.try_get_matches_from(words) {
        Ok(matches) => Ok(Some(matches)),
        Err(error) if error.kind() == ErrorKind::OutOfMemory => Err(NoMemory),
        Err(_) => Ok(None),
    }
}
