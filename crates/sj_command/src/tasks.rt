//! What the program can be asked for.

/// A command, with what it needs.
#[derive(Clone, Copy, Debug, PartialEq, Eq)]
pub enum Task {
    /// Checks a file and prints its counts.
    Check,
    /// Prints each protocol of a file and its dual.
    Show,
    /// Checks a file and says whether its parties and connections are a forest.
    Forest,
    /// Runs a file in the plain world and prints the transcript.
    Sim,
    /// Runs a file and prints the transcript, and after it the history where a log is asked for.
    /// A party that finds nothing to do looks again so many times, from 0 to 1,000,000. So
    /// many workers work the parties off, from 1 to 16; where none are named, each party
    /// has a thread of its own.
    Run {
        log: bool,
        looks: u32,
        workers: Option<u16>,
    },
    /// Runs a file by forwarding and prints the transcript and how many frames were passed on.
    Forward,
    /// Replays the log after a file, drains what is left, and prints as `Run` does.
    Replay {
        log: bool,
    },
    /// Reads a file, a line `%%talk` and lines that play the party of this number, from 0 to 15,
    /// and prints what is answered to each.
    Talk(u16),
    /// Prints the generated file with this many messages in each loop, from 1 to 1,000.
    Make(u16),
    /// Runs that file and prints a summary.
    Big(u16),
}
