//! From the words and the input to the output.
ghost use Rattle.std.specs.Prelude.{◌≡◌, ◌≤◌, IfOk, map, string_bytes};
ghost use Rattle.sj_base.specs.Stream.{Rose};
ghost use Rattle.sj_text.specs.Statuses.{OrYields, no_memory_status, write_fault_status};
ghost use Rattle.sj_explain.specs.Run.{AnswersOne, IsAnswered, WroteFront};

use crate::answers::Looks;
use crate::reasons::why;
use crate::words::{are_known, has_word};
use sj_base::{NoMemory, ReadRefusal, Sink, Source, WriteFault, read_all, write_all_of};
use sj_text::{NO_MEMORY, WRITE_FAULT};
use std::alloc::Global;

/// The most bytes of a file.
const MOST_BYTES: usize = 65_536;

/// A status, and the text that is written.
#[derive(Drop)]
struct Reply {
    status: u8,
    text: Vec<u8>,
}

/// Reads a file, and says what comes of it and why; the status is that of `sj check`.
///
/// The words are those after the program's name: `--svg` and `--colour`, in any order, or none. The
/// text is built whole before any of it is written.
pub fn explain<S: Source, K: Sink>(alloc: Global, words: &[String], src: &mut S, out: &mut K) -> u8
    ensures answer { OrYields result (AnswersOne (record {
      words = map string_bytes words.now;
      left = S.left src.old;
      left_after = S.left src.new;
      faults = S.faults src.old;
      faults_after = S.faults src.new;
    }) result (K.written out.old) (K.written out.new)) }
    ensures write_fault { result ≡ write_fault_status → Rose (K.faults out.old) (K.faults out.new) }
    ensures front { result ≡ write_fault_status → WroteFront (record {
      words = map string_bytes words.now;
      left = S.left src.old;
      left_after = S.left src.new;
      faults = S.faults src.old;
      faults_after = S.faults src.new;
    }) (K.written out.old) (K.written out.new) }
    ensures no_memory { result ≡ no_memory_status → K.written out.new ≡ K.written out.old }
{
    let reply = match reply_to(alloc, words, src) {
        Ok(reply) => reply,
        Err(NoMemory) => return NO_MEMORY,
    };
    match write_all_of(out, &reply.text) {
        Ok(()) => reply.status,
        Err(WriteFault) => WRITE_FAULT,
    }
}

fn reply_to<S: Source>(alloc: Global, words: &[String], src: &mut S) -> Result<Reply, NoMemory>
    ensures comes { IfOk result (λ r. IsAnswered (record {
      words = map string_bytes words.now;
      left = S.left src.old;
      left_after = S.left src.new;
      faults = S.faults src.old;
      faults_after = S.faults src.new;
    }) r.status r.text.items) }
    ensures low { IfOk result (λ r. r.status ≤ 5) }
{
    if !are_known(words) {
        return reply_with(alloc, 1, b"usage: sjwhy [--svg] [--colour]\n");
    }
    let looks = Looks {
        drawn: has_word(words, b"--svg"),
        coloured: has_word(words, b"--colour"),
    };
    match read_all(alloc, src, MOST_BYTES) {
        Ok(bytes) => {
            let told = why(alloc, looks, &bytes)?;
            let status = told.answer.status();
            Ok(Reply {
                status,
                text: told.text,
            })
        }
        Err(ReadRefusal::ReadFault) => reply_with(alloc, 2, b"read fault\n"),
        Err(ReadRefusal::TooLarge) => reply_with(alloc, 3, b"too large\n"),
        Err(ReadRefusal::NoMemory) => Err(NoMemory),
    }
}

fn reply_with(alloc: Global, status: u8, text: &[u8]) -> Result<Reply, NoMemory>
    ensures status { IfOk result (λ r. r.status ≡ status) }
    ensures text { IfOk result (λ r. r.text.items ≡ text.now) }
{
    let text = Vec::from_slice(alloc, text)?;
    Ok(Reply { status, text })
}
