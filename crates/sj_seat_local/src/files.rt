//! The file before the lines.
ghost use Rattle.std.specs.Prelude.{◌≡◌, ◌≤◌, ◌++◌, ◌∷◌, [], IfOk, IfSome, None, OnOk, length};
ghost use Rattle.sj_check.specs.Held.{file_in};
ghost use Rattle.sj_lang.specs.FileView.{file_of};
ghost use Rattle.sj_lang.specs.Limits.{file_limit};
ghost use Rattle.sj_seat_lines.specs.Reading.{newline, reader_at};
ghost use Rattle.sj_seat_local.specs.Before.{IsNoAccepted, IsTextOf, ReadsBefore};

use sj_base::{NoMemory, Source};
use sj_check::{Accepted, CheckRefusal, check};
use sj_grammar::is;
use sj_party::parse_file;
use sj_proto::{ParseRefusal, Tokens};
use sj_seat_lines::{LineReader, Next};
use std::alloc::Global;

/// What stands before the line `%%talk`.
#[derive(Drop)]
pub enum Before {
    File(Vec<u8>),
    /// A read failed.
    ReadFault,
    /// It is more than a file may have.
    TooLarge,
    /// No line is `%%talk`.
    NoTalk,
}

/// The bytes before the line `%%talk`, which may stand last without its newline.
pub fn file_before<S: Source>(alloc: Global, lines: &mut LineReader<S>) -> Result<Before, NoMemory>
    ensures { IfOk result (λ b. ReadsBefore (reader_at S.left S.faults lines.old) b
        (reader_at S.left S.faults lines.new)) }
{
    let mut bytes = Vec::new(alloc);
    for _ in 0..Tokens::MOST_BYTES + 1 {
        match lines.next(Tokens::MOST_BYTES + 1)? {
            Next::Line(line) => {
                if is(&line, b"%%talk") {
                    return Ok(Before::File(bytes));
                }
                put_line(&mut bytes, &line)?;
                if bytes.len() > Tokens::MOST_BYTES {
                    return Ok(Before::TooLarge);
                }
            }
            Next::Failed => return Ok(Before::ReadFault),
            Next::End => return Ok(Before::NoTalk),
        }
    }
    // So many lines have as many newlines.
    Ok(Before::TooLarge)
}

// Puts the line and its newline after the others.
fn put_line(bytes: &mut Vec<u8>, line: &[u8]) -> Result<(), NoMemory>
    ensures { OnOk result (bytes.new.items ≡ bytes.old.items ++ (line.now ++ newline ∷ [])) }
{
    bytes.extend_from_slice(line)?;
    bytes.push(b'\n')?;
    Ok(())
}

/// The file, where it is accepted. Whoever wants to know why it isn't asks `checked`.
pub fn accepted(alloc: Global, bytes: &[u8]) -> Result<Option<Accepted>, NoMemory>
    requires { length bytes.now ≤ file_limit }
    ensures some { IfOk result (λ o. IfSome o (λ a. IsTextOf bytes.now (file_of (file_in a)))) }
    ensures none { result ≡ Ok None → IsNoAccepted bytes.now }
{
    let file = match parse_file(alloc, bytes) {
        Ok(file) => file,
        Err(ParseRefusal::At(_)) => return Ok(None),
        Err(ParseRefusal::NoMemory) => return Err(NoMemory),
    };
    match check(alloc, file) {
        Ok(accepted) => Ok(Some(accepted)),
        Err((_, CheckRefusal::NoMemory)) => Err(NoMemory),
        Err((_, CheckRefusal::At { .. })) => Ok(None),
    }
}
