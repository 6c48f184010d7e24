//! From the input to the output.
ghost use Rattle.std.specs.Prelude.{◌≡◌, ◌⊎◌, ◌≤◌, ◌++◌, IfOk, codes, decimal};
ghost use Rattle.sj_base.specs.Stream.{Rose};
ghost use Rattle.sj_draw.specs.Answer.{outcome_of};
ghost use Rattle.sj_text.specs.Statuses.{no_memory_status, write_fault_status};
ghost use Rattle.sj_draw.specs.Run.{AnswersOne, IsAnswered, WroteFront, status_of, text_of};

use crate::texts::{DrawRefusal, draw_lines};
use sj_base::{NoMemory, ReadRefusal, Sink, Source, WriteFault, read_all, write_all_of};
use sj_text::{NO_MEMORY, WRITE_FAULT, put, put_number};
use std::alloc::Global;

/// The most bytes of an input.
const MOST_BYTES: usize = 67_108_864;

/// A status, and the text that is written.
#[derive(Drop)]
struct Reply {
    status: u8,
    text: Vec<u8>,
}

/// Reads a transcript, a log, or a transcript and its log, writes its picture, and answers 0.
///
/// Another status comes with a line that says why: 2 where a read failed, 3 where more than
/// 67,108,864 bytes came, 4 and 5 where `draw_lines` refuses a line. The text is built whole before
/// any of it is written; 10 comes where a write failed, and 11 where there was no memory.
pub fn draw<S: Source, K: Sink>(alloc: Global, src: &mut S, out: &mut K) -> u8
    ensures answer { AnswersOne (record {
      left = S.left src.old;
      left_after = S.left src.new;
      faults = S.faults src.old;
      faults_after = S.faults src.new;
    }) result (K.written out.old) (K.written out.new) ⊎ ((result ≡ write_fault_status) ⊎ (result ≡ no_memory_status)) }
    ensures write_fault { result ≡ write_fault_status → Rose (K.faults out.old) (K.faults out.new) }
    ensures front { result ≡ write_fault_status → WroteFront (record {
      left = S.left src.old;
      left_after = S.left src.new;
      faults = S.faults src.old;
      faults_after = S.faults src.new;
    }) (K.written out.old) (K.written out.new) }
    ensures no_memory { result ≡ no_memory_status → K.written out.new ≡ K.written out.old }
{
    let reply = match reply_to(alloc, src) {
        Ok(reply) => reply,
        Err(NoMemory) => return NO_MEMORY,
    };
    match write_all_of(out, &reply.text) {
        Ok(()) => reply.status,
        Err(WriteFault) => WRITE_FAULT,
    }
}

fn reply_to<S: Source>(alloc: Global, src: &mut S) -> Result<Reply, NoMemory>
    ensures comes { IfOk result (λ r. IsAnswered (record {
      left = S.left src.old;
      left_after = S.left src.new;
      faults = S.faults src.old;
      faults_after = S.faults src.new;
    }) r.status r.text.items) }
    ensures low { IfOk result (λ r. r.status ≤ 5) }
{
    match read_all(alloc, src, MOST_BYTES) {
        Ok(bytes) => reply_to_bytes(alloc, &bytes),
        Err(ReadRefusal::ReadFault) => reply_with(alloc, 2, b"read fault\n"),
        Err(ReadRefusal::TooLarge) => reply_with(alloc, 3, b"too large\n"),
        Err(ReadRefusal::NoMemory) => Err(NoMemory),
    }
}

fn reply_with(alloc: Global, status: u8, text: &[u8]) -> Result<Reply, NoMemory>
    ensures status { IfOk result (λ r. r.status ≡ status) }
    ensures text { IfOk result (λ r. r.text.items ≡ text.now) }
{
    let text = Vec::from_slice(alloc, text)?;
    Ok(Reply { status, text })
}

fn reply_to_bytes(alloc: Global, bytes: &[u8]) -> Result<Reply, NoMemory>
    ensures status { IfOk result (λ r. r.status ≡ status_of (outcome_of bytes.now)) }
    ensures text { IfOk result (λ r. r.text.items ≡ text_of (outcome_of bytes.now)) }
{
    match draw_lines(alloc, bytes) {
        Ok(text) => Ok(Reply { status: 0, text }),
        Err(DrawRefusal::Unread(n)) => {
            let text = line_text(alloc, n, b" is none of a transcript or a log\n")?;
            Ok(Reply { status: 4, text })
        }
        Err(DrawRefusal::Beyond(n)) => {
            let text = line_text(alloc, n, b" passes a limit\n")?;
            Ok(Reply { status: 5, text })
        }
        Err(DrawRefusal::NoMemory) => Err(NoMemory),
    }
}

// What is said of the line of that number.
fn line_text(alloc: Global, n: usize, what: &[u8]) -> Result<Vec<u8>, NoMemory>
    ensures { IfOk result (λ t. t.items ≡ codes "line " ++ (decimal n ++ what.now)) }
{
    let mut text = Vec::new(alloc);
    put(&mut text, b"line ")?;
    put_number(&mut text, n as u64)?;
    put(&mut text, what)?;
    Ok(text)
}
