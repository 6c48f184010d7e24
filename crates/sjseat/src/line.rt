//! The command line as `clap` reads it.
use clap::error::ErrorKind;
use clap::{Arg, ArgAction, ArgMatches, Command, Error};
use sj_base::NoMemory;
use std::alloc::{AllocError, Global};

/// An option with a value.
fn option<'a>(alloc: Global, name: &'a str) -> Arg<'a> {
    Arg::new(alloc, name).long(name).action(ArgAction::Set)
}

/// The line whole: the party and options.
fn whole_line<'a>(alloc: Global) -> Result<Command<'a>, AllocError> {
    let line = Command::new(alloc, "sjseat")
        .no_binary_name(true)
        .arg(
            Arg::new(alloc, "party")
                .required(true)
                .action(ArgAction::Set),
        )?
        .arg(
            Arg::new(alloc, "local")
                .long("local")
                .action(ArgAction::SetTrue),
        )?
        .arg(option(alloc, "patience"))?
        .arg(option(alloc, "run"))?
        .arg(option(alloc, "server"))?
        .arg(option(alloc, "wait"))?
        .arg(option(alloc, "user"))?;
    Ok(line)
}

/// What the line makes of the words. None where they break a rule of it, or ask for help.
pub(crate) fn matches_in<'a>(
    alloc: Global,
    words: &'a [String],
) -> Result<Option<ArgMatches<'a>>, NoMemory> {
    let line = whole_line(alloc)?;
    match line.try_get_matches_from(words) {
        Ok(matches) => Ok(Some(matches)),
        Err(error) if error.kind() == ErrorKind::OutOfMemory => Err(NoMemory),
        Err(_) => Ok(None),
    }
}
