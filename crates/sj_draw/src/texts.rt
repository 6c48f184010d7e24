//! From lines to a picture.
ghost use Rattle.std.specs.Prelude.{◌≡◌, IfOk, IfErr, IsTrue, map};
ghost use Rattle.sj_draw.specs.Chart.{empty, gathered, is_within, Gathered};
ghost use Rattle.sj_draw.specs.Answer.{IsDrawn, IsRefused, lines_of, outcome_of, whole_lines, parted};
ghost use Rattle.sj_draw.specs.Views.{chart_at};

use crate::chart::Chart;
use crate::lines::read_line;
use crate::picture::put_picture;
use sj_base::NoMemory;
use std::alloc::{AllocError, Global};
use thiserror::Error;

/// Why no picture was drawn. The numbers are of lines, from 1.
#[derive(Clone, Copy, Debug, PartialEq, Eq, Error)]
pub enum DrawRefusal {
    /// The line is none of a transcript or a log, and those before it are drawn.
    #[error("line {0}")]
    Unread(usize),
    /// The line is one. With it there are more than 16 parties, 1,664 sessions, 1,000,000 arrows,
    /// 64 bytes of a party's name, or 1,024 of an end's name and a text.
    #[error("too much at line {0}")]
    Beyond(usize),
    #[error("no memory")]
    NoMemory,
}

/// The picture of the lines of a transcript, a log, or a transcript and its log, as an SVG.
///
/// A newline at the end begins no line. There is always a first line, which may be
/// empty, and is refused then.
pub fn draw_lines(alloc: Global, bytes: &[u8]) -> Result<Vec<u8>, DrawRefusal>
    ensures ok { IfOk result (λ svg. IsDrawn (outcome_of bytes.now) svg.items) }
    ensures err { IfErr result (IsRefused (outcome_of bytes.now)) }
{
    let lines = match lines_in(alloc, bytes) {
        Ok(lines) => lines,
        Err(NoMemory) => return Err(DrawRefusal::NoMemory),
    };
    let chart = gather(alloc, &lines)?;
    let mut text = Vec::new(alloc);
    match put_picture(&mut text, &chart) {
        Ok(()) => Ok(text),
        Err(NoMemory) => Err(DrawRefusal::NoMemory),
    }
}

// What is gathered of the lines.
fn gather<'a>(alloc: Global, lines: &[&'a [u8]]) -> Result<Chart<'a>, DrawRefusal>
    ensures ok { IfOk result (λ f. gathered empty 1 (map (λ l. l.now) lines.now)
        ≡ Gathered (chart_at f)) }
    ensures within { IfOk result (λ f. IsTrue (is_within (chart_at f))) }
    ensures err { IfErr result (IsRefused (gathered empty 1 (map (λ l. l.now) lines.now))) }
{
    let mut chart = Chart::new(alloc);
    for (i, bytes) in lines.iter().enumerate() {
        let Some(line) = read_line(bytes) else {
            return Err(DrawRefusal::Unread(i + 1));
        };
        match chart.take(line) {
            Ok(()) => {}
            Err(NoMemory) => return Err(DrawRefusal::NoMemory),
        }
        if !chart.is_within() {
            return Err(DrawRefusal::Beyond(i + 1));
        }
    }
    Ok(chart)
}

// The lines of a text, without the newline at its end.
fn lines_in(alloc: Global, bytes: &[u8]) -> Result<Vec<&[u8]>, NoMemory>
    ensures { IfOk result (λ v. map (λ l. l.now) v.items ≡ lines_of bytes.now) }
{
    Ok(parts(alloc, whole_lines(bytes))?)
}

// What stands between the newlines of a text.
fn parts(alloc: Global, text: &[u8]) -> Result<Vec<&[u8]>, AllocError>
    ensures { IfOk result (λ v. map (λ l. l.now) v.items ≡ parted text.now) }
{
    text.split(|b| *b == b'\n').collect(alloc)
}

// What stands before the newline at the end, if there is one.
fn whole_lines(bytes: &[u8]) -> &[u8]
    ensures { result.now ≡ whole_lines bytes.now }
{
    match bytes.last() {
        Some(b'\n') => &bytes[..bytes.len() - 1],
        _ => bytes,
    }
}
