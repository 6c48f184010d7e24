//! What the words of a call ask for.
ghost use Rattle.std.specs.Prelude.{◌≡◌, Bool, map, string_bytes, Some, None, Ok, option_map, codes, IfOk, IfSome};
ghost use Rattle.sj_command.specs.Task.{Asks, IsUsage, Means, alone, flag_text};
ghost use Rattle.sj_command.specs.Views.{line_of};
ghost use Rattle.sj_command.specs.declared.tasks.Task.{Task as Asked};

use crate::counts::{count_in, looks_in, party_in, workers_in};
use crate::line::matches_in;
use crate::parts::Line;
use crate::tasks::Task;
use sj_base::NoMemory;
use std::alloc::Global;

/// What the words after the program's name ask for. None where they are no command.
pub fn task_in(alloc: Global, words: &[String]) -> Result<Option<Task>, NoMemory>
    ensures asked { IfOk result (λ t. IfSome t (Asks (map string_bytes words.now))) }
    ensures usage { result ≡ Ok None → IsUsage (map string_bytes words.now) }
{
    let Some(matches) = matches_in(alloc, words)? else {
        return Ok(None);
    };
    let line = Line {
        command: matches.get_str("command"),
        number: matches.get_str("number"),
        log: matches.get_str("log"),
        looks: matches.get_str("looks"),
        workers: matches.get_str("workers"),
        forward: matches.get_str("forward"),
    };
    Ok(task_of(line))
}

// The task of a line.
fn task_of(line: Line<'_>) -> Option<Task>
    ensures some { IfSome result (Means (line_of line.entry)) }
    ensures none { result ≡ None → (t : Asked) → Means (line_of line.entry) t → ⊥ }
{
    match flag_in(line.forward) {
        Some(false) => unforwarded(line),
        Some(true) => forwarded(line),
        None => None,
    }
}

// The task of a line that asks for forwarding: of `run` alone, without anything else.
fn forwarded(line: Line<'_>) -> Option<Task>
    requires forward { (line_of line).forward ≡ Some (codes "true") }
    ensures some { IfSome result (Means (line_of line.entry)) }
    ensures none { result ≡ None → (t : Asked) → Means (line_of line.entry) t → ⊥ }
{
    let name = line.command?;
    if name.as_bytes() != b"run".as_slice() {
        return None;
    }
    match (line.number, flag_in(line.log), line.looks, line.workers) {
        (None, Some(false), None, None) => Some(Task::Forward),
        _ => None,
    }
}

// The task of a line that asks for no forwarding.
fn unforwarded(line: Line<'_>) -> Option<Task>
    requires forward { (line_of line).forward ≡ Some (codes "false") }
    ensures some { IfSome result (Means (line_of line.entry)) }
    ensures none { result ≡ None → (t : Asked) → Means (line_of line.entry) t → ⊥ }
{
    let name = line.command?;
    if name.as_bytes() == b"run".as_slice() {
        return run_in(line);
    }
    if name.as_bytes() == b"replay".as_slice() {
        return replay_in(line);
    }
    match (flag_in(line.log), line.looks, line.workers) {
        (Some(false), None, None) => task_named(name, line.number),
        _ => None,
    }
}

// `run` with that number, that flag and those options.
fn run_in(line: Line<'_>) -> Option<Task>
    requires forward { (line_of line).forward ≡ Some (codes "false") }
    requires name { (line_of line).command ≡ Some (codes "run") }
    ensures some { IfSome result (Means (line_of line.entry)) }
    ensures none { result ≡ None → (t : Asked) → Means (line_of line.entry) t → ⊥ }
{
    match (
        line.number,
        flag_in(line.log),
        looks_in(line.looks),
        workers_in(line.workers),
    ) {
        (None, Some(log), Some(looks), Some(workers)) => {
            Some(Task::Run {
                log,
                looks,
                workers,
            })
        }
        _ => None,
    }
}

// `replay` with that number, that flag and those options.
fn replay_in(line: Line<'_>) -> Option<Task>
    requires forward { (line_of line).forward ≡ Some (codes "false") }
    requires name { (line_of line).command ≡ Some (codes "replay") }
    ensures some { IfSome result (Means (line_of line.entry)) }
    ensures none { result ≡ None → (t : Asked) → Means (line_of line.entry) t → ⊥ }
{
    match (line.number, flag_in(line.log), line.looks, line.workers) {
        (None, Some(log), None, None) => Some(Task::Replay { log }),
        _ => None,
    }
}

// Whether the flag is there.
fn flag_in(flag: Option<&str>) -> Option<bool>
    ensures some { IfSome result (λ b. option_map (λ s. s.now) flag.entry ≡ Some (flag_text b)) }
    ensures none { result ≡ None → (b : Bool)
        → option_map (λ s. s.now) flag.entry ≡ Some (flag_text b) → ⊥ }
{
    let text = flag?.as_bytes();
    if text == b"false".as_slice() {
        Some(false)
    } else if text == b"true".as_slice() {
        Some(true)
    } else {
        None
    }
}

// The task of another name and that number, with no option.
fn task_named(name: &str, number: Option<&str>) -> Option<Task>
    requires run { name.now ≡ codes "run" → ⊥ }
    requires replay { name.now ≡ codes "replay" → ⊥ }
    ensures some { IfSome result (Means (alone name.entry.now (option_map (λ s. s.now) number.entry))) }
    ensures none { result ≡ None → (t : Asked)
        → Means (alone name.entry.now (option_map (λ s. s.now) number.entry)) t → ⊥ }
{
    match number {
        None => task_alone(name.as_bytes()),
        Some(number) if name.as_bytes() == b"make".as_slice() => {
            count_in(number).map(Task::Make)
        }
        Some(number) if name.as_bytes() == b"big".as_slice() => { count_in(number).map(Task::Big) }
        Some(number) if name.as_bytes() == b"talk".as_slice() => {
            party_in(number).map(Task::Talk)
        }
        Some(_) => None,
    }
}

// The task of another name, with no number.
fn task_alone(name: &[u8]) -> Option<Task>
    requires run { name.now ≡ codes "run" → ⊥ }
    requires replay { name.now ≡ codes "replay" → ⊥ }
    ensures some { IfSome result (Means (alone name.now None)) }
    ensures none { result ≡ None → (t : Asked) → Means (alone name.now None) t → ⊥ }
{
    if name == b"check".as_slice() {
        Some(Task::Check)
    } else if name == b"show".as_slice() {
        Some(Task::Show)
    } else if name == b"forest".as_slice() {
        Some(Task::Forest)
    } else if name == b"sim".as_slice() {
        Some(Task::Sim)
    } else {
        None
    }
}
