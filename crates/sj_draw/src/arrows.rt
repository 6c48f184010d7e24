//! An arrow for each message or frame, with the name of its end and its text above it.
ghost use Rattle.std.specs.Prelude.{◌≡◌, ◌≤◌, ◌++◌, OnOk, length, map};
ghost use Rattle.sj_draw.specs.Chart.{most_arrows, most_parties};
ghost use Rattle.sj_draw.specs.Drawn.{class_of, end_class, way_of, between_text, way_text, is_cut};
ghost use Rattle.sj_draw.specs.Drawn.{label_text, title_text, room_of, arrow_text, arrows_text};
ghost use Rattle.sj_draw.specs.Small.{most_base, most_x, most_tip};
ghost use Rattle.sj_draw.specs.Views.{arrow_at};

use crate::chart::Arrow;
use crate::layout::{letters_of, row_of, tip_of, x_of};
use crate::lines::Mark;
use crate::pieces::Piece::{Cut, Escaped, Number, Plain};
use crate::pieces::put_pieces;
use sj_base::NoMemory;

/// After so many rows the names stand again.
const ROWS_OF_NAMES: usize = 40;

/// The most letters of an end's name above an arrow.
const LETTERS_OF_NAME: usize = 12;

/// Puts the arrows, each in its row, after the text.
pub(crate) fn put_arrows(
    text: &mut Vec<u8>,
    base: u64,
    names: &[&[u8]],
    arrows: &[Arrow<'_>],
) -> Result<(), NoMemory>
    requires base { base ≤ most_base }
    requires parties { length names.now ≤ most_parties }
    requires few { length arrows.now ≤ most_arrows }
    ensures { OnOk result (text.new.items
        ≡ text.old.items ++ arrows_text base (map (λ n. n.now) names.now) 0 (map arrow_at arrows.now)) }
{
    for (k, arrow) in arrows.iter().enumerate() {
        put_arrow(text, base, names, k, arrow)?;
    }
    Ok(())
}

// The row of an arrow; the names stand again above each fortieth.
fn put_arrow(
    text: &mut Vec<u8>,
    base: u64,
    names: &[&[u8]],
    k: usize,
    arrow: &Arrow<'_>,
) -> Result<(), NoMemory>
    requires base { base ≤ most_base }
    requires parties { length names.now ≤ most_parties }
    requires few { k ≤ most_arrows }
    ensures { OnOk result (text.new.items
        ≡ text.old.items ++ arrow_text base (map (λ n. n.now) names.now) k (arrow_at arrow.now)) }
{
    let start = x_of(base, names, arrow.from);
    let tip = tip_of(base, names, arrow.from, arrow.to);
    let room = room_of(letters_of(base, start, tip), arrow);
    put_between(text, k)?;
    put_way(text, start, tip, k, arrow)?;
    put_label(text, room, arrow)
}

fn put_between(text: &mut Vec<u8>, k: usize) -> Result<(), NoMemory>
    requires { k ≤ most_arrows }
    ensures { OnOk result (text.new.items ≡ text.old.items ++ between_text k) }
{
    if k % ROWS_OF_NAMES == 0 && 0 < k {
        return put_pieces(
            text,
            &[
                Plain(b"<use href='#names' y='"),
                Number(row_of(k) + 18),
                Plain(b"'/>\n"),
            ],
        );
    }
    Ok(())
}

// An arrow, and the place of what stands above it.
fn put_way(
    text: &mut Vec<u8>,
    start: u64,
    tip: u64,
    k: usize,
    arrow: &Arrow<'_>,
) -> Result<(), NoMemory>
    requires start { start ≤ most_x }
    requires tip { tip ≤ most_tip }
    requires few { k ≤ most_arrows }
    ensures { OnOk result (text.new.items
        ≡ text.old.items ++ way_text start tip k (arrow_at arrow.now)) }
{
    let y = row_of(k);
    put_pieces(
        text,
        &[
            Plain(b"<path class='"),
            Plain(class_of(arrow.mark)),
            Plain(end_class(arrow.to)),
            Plain(b"' d='M "),
            Number(start),
            Plain(b" "),
            Number(y + 88),
            Plain(way_of(arrow.from, arrow.to)),
            Number(tip),
            Plain(b"'/><text x='"),
            Number(start.min(tip) + 14),
            Plain(b"' y='"),
            Number(y + 80),
            Plain(b"'>"),
        ],
    )
}

// The letters that are left for the text, after the name, a colon and a
// space, and with an ellipsis.
fn room_of(letters: usize, arrow: &Arrow<'_>) -> usize
    ensures { result ≡ room_of letters (arrow_at arrow.now) }
{
    letters.saturating_sub(arrow.name.len().min(LETTERS_OF_NAME) + 3)
}

// The name of an arrow's end and its text.
fn put_label(text: &mut Vec<u8>, room: usize, arrow: &Arrow<'_>) -> Result<(), NoMemory>
    ensures { OnOk result (text.new.items
        ≡ text.old.items ++ label_text room (arrow_at arrow.now)) }
{
    put_title(text, room, arrow)?;
    put_pieces(
        text,
        &[
            Cut(arrow.name, LETTERS_OF_NAME),
            Plain(b": "),
            Cut(arrow.text, room),
            Plain(b"</text>\n"),
        ],
    )
}

// What is cut stands whole in a title.
fn put_title(text: &mut Vec<u8>, room: usize, arrow: &Arrow<'_>) -> Result<(), NoMemory>
    ensures { OnOk result (text.new.items
        ≡ text.old.items ++ title_text room (arrow_at arrow.now)) }
{
    if is_cut(room, arrow) {
        return put_pieces(
            text,
            &[
                Plain(b"<title>"),
                Escaped(arrow.name),
                Plain(b": "),
                Escaped(arrow.text),
                Plain(b"</title>"),
            ],
        );
    }
    Ok(())
}

fn is_cut(room: usize, arrow: &Arrow<'_>) -> bool
    ensures { result ≡ is_cut room (arrow_at arrow.now) }
{
    LETTERS_OF_NAME < arrow.name.len() || room < arrow.text.len()
}

fn class_of(mark: Mark) -> &'static [u8]
    ensures { result.now ≡ class_of mark }
{
    match mark {
        Mark::Message => b"message",
        Mark::Fin => b"fin",
        Mark::Session => b"session",
        Mark::Claim => b"claim",
        Mark::Signal => b"signal",
        Mark::Ack => b"ack",
        Mark::Give => b"give",
        Mark::Request => b"request",
        Mark::Open => b"open",
        Mark::Accept => b"accept",
    }
}

// A message that nobody took ends in an open circle.
fn end_class(to: Option<usize>) -> &'static [u8]
    ensures { result.now ≡ end_class to }
{
    match to {
        Some(_) => b"",
        None => b" untaken",
    }
}

// An arrow to the party itself bends.
fn way_of(from: usize, to: Option<usize>) -> &'static [u8]
    ensures { result.now ≡ way_of from to }
{
    match to {
        Some(to) if from == to => b" h 44 v 8 H ",
        _ => b" H ",
    }
}
