//! What the words of a call ask for.

/// What the words ask for.
#[derive(Drop)]
pub(crate) struct Words {
    /// The name of the run.
    pub(crate) run: String,
    /// The host and the port of the server.
    pub(crate) server: String,
    /// So many milliseconds it waits until something comes.
    pub(crate) wait: u64,
    /// So many milliseconds the code takes for each call.
    pub(crate) pause: u64,
}

/// What the words after the program's name ask for. None where they are no command.
pub(crate) fn words_in(words: Vec<String>) -> Option<Words> {
    let mut words = words.into_iter();
    let (Some(run), Some(server), Some(wait), Some(pause)) = (
        words.next(),
        words.next(),
        words.next(),
        words.next(),
    ) else {
        return None;
    };
    let (Ok(wait), Ok(pause)) = (wait.parse::<u64>(), pause.parse::<u64>()) else {
        return None;
    };
    Some(Words {
        run,
        server,
        wait,
        pause,
    })
}
