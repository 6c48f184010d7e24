//! What the words of a call ask for.
use crate::line::matches_in;
use clap::ArgMatches;
use sj_base::NoMemory;
use std::alloc::Global;

/// How often a call that waits is tried again beside threads, where no word says it.
const LOCAL_PATIENCE: u64 = 1_000;

/// The same over a server.
const REMOTE_PATIENCE: u64 = 1;

/// Where the server is, where no word says it.
const USUAL_SERVER: &str = "127.0.0.1:6379";

/// So many seconds a try waits, where no word says it.
const USUAL_WAIT: u64 = 10;

/// The most that a number of a word may be.
const MOST: u64 = 1_000_000;

/// What the words ask for.
#[derive(Drop)]
pub(crate) struct Words {
    /// The party's name, or its number.
    pub(crate) party: String,
    /// How often a call that waits is tried again.
    pub(crate) patience: u32,
    /// The run at a server; none where the others are on threads.
    pub(crate) remote: Option<Remote>,
}

/// A run at a server.
#[derive(Drop)]
pub(crate) struct Remote {
    /// The name of the run.
    pub(crate) run: String,
    /// The host and the port of the server.
    pub(crate) server: String,
    /// Whose password it is, where that isn't the usual user.
    pub(crate) user: Option<String>,
    /// So many seconds a try waits until something comes.
    pub(crate) wait: u64,
}

/// The number from the least on that the text is, or the usual one where there is no text.
fn number(text: Option<&str>, least: u64, usual: u64) -> Option<u64> {
    match text {
        None => Some(usual),
        Some(text) => match text.parse::<u64>() {
            Ok(n) if least <= n && n <= MOST => Some(n),
            _ => None,
        },
    }
}

/// The run that the words name. None where its numbers are none.
fn remote_in(
    alloc: Global,
    matches: &ArgMatches<'_>,
    run: &str,
) -> Result<Option<Remote>, NoMemory> {
    let Some(wait) = number(matches.get_str("wait"), 1, USUAL_WAIT) else {
        return Ok(None);
    };
    let user = match matches.get_str("user") {
        Some(user) => Some(String::from_str(alloc, user)?),
        None => None,
    };
    let server = matches.get_str("server").unwrap_or(USUAL_SERVER);
    Ok(Some(Remote {
        run: String::from_str(alloc, run)?,
        server: String::from_str(alloc, server)?,
        user,
        wait,
    }))
}

/// Whether a word is there that is for a run at a server alone.
fn is_remote(matches: &ArgMatches<'_>) -> bool {
    matches.get_str("run").is_some()
        || matches.get_str("server").is_some()
        || matches.get_str("wait").is_some()
        || matches.get_str("user").is_some()
}

/// What the words after the program's name ask for. None where they are no command.
pub(crate) fn words_in(alloc: Global, words: &[String]) -> Result<Option<Words>, NoMemory> {
    let Some(matches) = matches_in(alloc, words)? else {
        return Ok(None);
    };
    let Some(party) = matches.get_str("party") else {
        return Ok(None);
    };
    let remote = match matches.get_str("run") {
        Some(run) if !matches.get_flag("local") => match remote_in(alloc, &matches, run)? {
            Some(remote) => Some(remote),
            None => return Ok(None),
        },
        None if matches.get_flag("local") && !is_remote(&matches) => None,
        _ => return Ok(None),
    };
    let usual = if remote.is_some() {
        REMOTE_PATIENCE
    } else {
        LOCAL_PATIENCE
    };
    let Some(patience) = number(matches.get_str("patience"), 0, usual) else {
        return Ok(None);
    };
    let Ok(patience) = u32::try_from(patience) else {
        return Ok(None);
    };
    let party = String::from_str(alloc, party)?;
    Ok(Some(Words {
        party,
        patience,
        remote,
    }))
}
