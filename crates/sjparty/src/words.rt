//! What the words of a call ask for.
use crate::line::matches_in;
use sj_base::NoMemory;
use std::alloc::Global;

/// Where the server is, if no word says it.
const USUAL_SERVER: &str = "127.0.0.1:6379";

/// What the words ask for.
#[derive(Drop)]
pub(crate) struct Words {
    /// The party's name in the file.
    pub(crate) name: String,
    /// The name of the run.
    pub(crate) run: String,
    /// The host and the port of the server.
    pub(crate) server: String,
    /// Whose password it is, where that isn't the usual user.
    pub(crate) user: Option<String>,
    /// So many seconds it waits until something comes.
    pub(crate) wait: u64,
    /// So often it tries again where the connection is lost.
    pub(crate) tries: u64,
    /// So many milliseconds lie between two tries.
    pub(crate) pause: u64,
}

/// The number from the least to the most that the text is, or the usual one where there is no text.
fn number(text: Option<&str>, least: u64, most: u64, usual: u64) -> Option<u64> {
    match text {
        None => Some(usual),
        Some(text) => match text.parse::<u64>() {
            Ok(n) if least <= n && n <= most => Some(n),
            _ => None,
        },
    }
}

/// What the words after the program's name ask for. None where they are no command.
pub(crate) fn words_in(alloc: Global, words: &[String]) -> Result<Option<Words>, NoMemory> {
    let Some(matches) = matches_in(alloc, words)? else {
        return Ok(None);
    };
    let (Some(name), Some(run)) = (matches.get_str("name"), matches.get_str("run")) else {
        return Ok(None);
    };
    let (Some(wait), Some(tries), Some(pause)) = (
        number(matches.get_str("wait"), 1, 1_000_000, 10),
        number(matches.get_str("tries"), 0, 1_000_000, 100),
        number(matches.get_str("pause"), 1, 1_000_000, 200),
    ) else {
        return Ok(None);
    };
    let user = match matches.get_str("user") {
        Some(user) => Some(String::from_str(alloc, user)?),
        None => None,
    };
    let server = matches.get_str("server").unwrap_or(USUAL_SERVER);
    Ok(Some(Words {
        name: String::from_str(alloc, name)?,
        run: String::from_str(alloc, run)?,
        server: String::from_str(alloc, server)?,
        user,
        wait,
        tries,
        pause,
    }))
}
