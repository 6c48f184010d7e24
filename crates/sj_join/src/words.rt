//! The words after the program's name.
/// Where the server is, where no word says it.
const USUAL_SERVER: &str = "127.0.0.1:6379";

/// What is done with a run.
#[derive(Clone, Copy, Debug, PartialEq, Eq)]
pub enum Task {
    /// Its end is printed, and its log where it is asked for.
    Replay { log: bool },
    /// What it did so far is printed, and where its parties are.
    Now,
    /// Its keys are removed.
    Drop,
}

/// A run, where its server is, and what is done with it.
#[derive(Clone, Copy)]
pub struct Asked<'a> {
    pub run: &'a str,
    pub server: &'a str,
    /// Whose password is given, if it isn't that of the usual user.
    pub user: Option<&'a str>,
    pub task: Task,
}

/// What the words so far say.
#[derive(Clone, Copy)]
struct Given<'a> {
    run: Option<&'a str>,
    server: Option<&'a str>,
    user: Option<&'a str>,
    task: Option<Task>,
}

/// What a word before another one names.
#[derive(Clone, Copy)]
enum Name {
    Run,
    Server,
    User,
}

/// What the words ask for. None where they are no command.
pub fn asked_in<'a>(words: &'a [String]) -> Option<Asked<'a>> {
    let mut given = Given {
        run: None,
        server: None,
        user: None,
        task: None,
    };
    let mut at = 0;
    while at < words.len() {
        let word = words[at].as_str();
        at += 1;
        if let Some(task) = task_named(word) {
            given = with_task(given, task)?;
        } else {
            let name = name_in(word)?;
            if at >= words.len() {
                return None;
            }
            given = with_text(given, name, words[at].as_str())?;
            at += 1;
        }
    }
    Some(Asked {
        run: given.run?,
        server: given.server.unwrap_or(USUAL_SERVER),
        user: given.user,
        task: given.task.unwrap_or(Task::Replay { log: false }),
    })
}

fn task_named(word: &str) -> Option<Task> {
    if word == "--log" {
        Some(Task::Replay { log: true })
    } else if word == "--now" {
        Some(Task::Now)
    } else if word == "--drop" {
        Some(Task::Drop)
    } else {
        None
    }
}

fn name_in(word: &str) -> Option<Name> {
    if word == "--run" {
        Some(Name::Run)
    } else if word == "--server" {
        Some(Name::Server)
    } else if word == "--user" {
        Some(Name::User)
    } else {
        None
    }
}

// That task is asked for, and none was.
fn with_task<'a>(given: Given<'a>, task: Task) -> Option<Given<'a>> {
    match given.task {
        None => Some(Given {
            task: Some(task),
            ..given
        }),
        Some(_) => None,
    }
}

// The text is of that name, of which none was given.
fn with_text<'a>(given: Given<'a>, name: Name, text: &'a str) -> Option<Given<'a>> {
    match (name, given.run, given.server, given.user) {
        (Name::Run, None, _, _) => Some(Given {
            run: Some(text),
            ..given
        }),
        (Name::Server, _, None, _) => Some(Given {
            server: Some(text),
            ..given
        }),
        (Name::User, _, _, None) => Some(Given {
            user: Some(text),
            ..given
        }),
        _ => None,
    }
}
