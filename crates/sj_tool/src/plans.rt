//! What a task asks for: what is read, what is done with the file, and what is printed.
ghost use Rattle.sj_tool.specs.Plans.{IsPlan};

use sj_command::{Task, USUAL_LOOKS};

/// What is printed of a history.
#[derive(Clone, Copy)]
pub enum Print {
    /// The transcript of its end, and after it the history where the log is asked for.
    Transcript { log: bool },
    /// How much was done in the generated file of that number, and how it ended.
    Sums(u16),
}

/// How the parties of a file run, and what is printed of that.
#[derive(Clone, Copy)]
pub struct Running {
    /// How often a party looks in vain before it stops.
    pub looks: u32,
    /// On how many threads the parties work, if each has none of its own.
    pub workers: Option<u16>,
    pub print: Print,
}

/// What is done with a file.
#[derive(Clone, Copy)]
pub enum Play {
    Check,
    Show,
    Forest,
    Sim,
    Forward,
    Run(Running),
    /// With the history, where it is asked for.
    Replay { prints: bool },
    Talk(u16),
}

/// Where the file comes from, and what is done with it.
#[derive(Clone, Copy)]
pub enum Plan {
    /// The generated file of that number, which is printed.
    Make(u16),
    /// That file, with which this is done.
    Made(u16, Play),
    /// A file that is read, with which this is done.
    Read(Play),
}

/// What the task asks for.
pub(crate) fn plan_of(task: Task) -> Plan
    ensures { IsPlan result task }
{
    match task {
        Task::Check => Plan::Read(Play::Check),
        Task::Show => Plan::Read(Play::Show),
        Task::Forest => Plan::Read(Play::Forest),
        Task::Sim => Plan::Read(Play::Sim),
        Task::Forward => Plan::Read(Play::Forward),
        Task::Run {
            log,
            looks,
            workers,
        } => {
            let print = Print::Transcript { log };
            Plan::Read(Play::Run(Running {
                looks,
                workers,
                print,
            }))
        }
        Task::Replay { log } => Plan::Read(Play::Replay { prints: log }),
        Task::Talk(party) => Plan::Read(Play::Talk(party)),
        Task::Make(n) => Plan::Make(n),
        Task::Big(n) => {
            let run = Running {
                looks: USUAL_LOOKS,
                workers: None,
                print: Print::Sums(n),
            };
            Plan::Made(n, Play::Run(run))
        }
    }
}
