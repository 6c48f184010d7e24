//! The picture of a chart: its head, a line for each party, an arrow for each
//! message or frame, and its foot.
ghost use Rattle.std.specs.Prelude.{◌≡◌, ◌≤◌, ◌++◌, OnOk, IsTrue, length, map};
ghost use Rattle.sj_draw.specs.Chart.{is_within, most_arrows, most_parties};
ghost use Rattle.sj_draw.specs.Columns.{x_of};
ghost use Rattle.sj_draw.specs.Drawn.{head_text, parties_text, arrows_text, foot_text, picture, picture_at};
ghost use Rattle.sj_draw.specs.Drawn.{name_text, names_text, line_text, lines_text};
ghost use Rattle.sj_draw.specs.Small.{IsSmall, most_base};
ghost use Rattle.sj_draw.specs.Views.{arrow_at, chart_at};

use crate::arrows::put_arrows;
use crate::chart::Chart;
use crate::layout::{Layout, layout_of, x_of};
use crate::pieces::Piece::{Escaped, Number, Plain};
use crate::pieces::put_pieces;
use crate::style::STYLE;
use sj_base::NoMemory;
use sj_text::put;

/// Puts the picture of a chart after the text.
pub(crate) fn put_picture(text: &mut Vec<u8>, chart: &Chart<'_>) -> Result<(), NoMemory>
    requires { IsTrue (is_within (chart_at chart.now)) }
    ensures { OnOk result (text.new.items ≡ text.old.items ++ picture (chart_at chart.now)) }
{
    put_picture_at(text, layout_of(chart), chart)
}

fn put_picture_at(text: &mut Vec<u8>, layout: Layout, chart: &Chart<'_>) -> Result<(), NoMemory>
    requires small { IsSmall layout }
    requires parties { length chart.now.parties.items ≤ most_parties }
    requires arrows { length chart.now.arrows.items ≤ most_arrows }
    ensures { OnOk result (text.new.items
        ≡ text.old.items ++ picture_at layout (chart_at chart.now)) }
{
    put_head(text, layout)?;
    put(text, STYLE)?;
    put_parties(text, layout, &chart.parties)?;
    put_arrows(text, layout.base, &chart.parties, &chart.arrows)?;
    put_foot(text, layout)
}

fn put_head(text: &mut Vec<u8>, layout: Layout) -> Result<(), NoMemory>
    ensures { OnOk result (text.new.items ≡ text.old.items ++ head_text layout) }
{
    put_pieces(
        text,
        &[
            Plain(b"<svg xmlns='http://www.w3.org/2000/svg' width='"),
            Number(layout.width),
            Plain(b"' height='"),
            Number(layout.height),
            Plain(b"' viewBox='0 0 "),
            Number(layout.width),
            Plain(b" "),
            Number(layout.height),
            Plain(b"'>\n"),
        ],
    )
}

// The names as a group, which is drawn again further down, and then the lines.
fn put_parties(text: &mut Vec<u8>, layout: Layout, names: &[&[u8]]) -> Result<(), NoMemory>
    requires small { IsSmall layout }
    requires few { length names.now ≤ most_parties }
    ensures { OnOk result (text.new.items
        ≡ text.old.items ++ parties_text layout (map (λ n. n.now) names.now)) }
{
    put_names(text, layout.base, names)?;
    put(text, b"</g>\n")?;
    put_lines(text, layout, names)
}

fn put_names(text: &mut Vec<u8>, base: u64, names: &[&[u8]]) -> Result<(), NoMemory>
    requires base { base ≤ most_base }
    requires few { length names.now ≤ most_parties }
    ensures { OnOk result (text.new.items
        ≡ text.old.items ++ names_text base (map (λ n. n.now) names.now) 0 (map (λ n. n.now) names.now)) }
{
    for (i, name) in names.iter().enumerate() {
        put_name(text, base, names, i, name)?;
    }
    Ok(())
}

// A party's name, at the head of its column.
fn put_name(
    text: &mut Vec<u8>,
    base: u64,
    names: &[&[u8]],
    i: usize,
    name: &[u8],
) -> Result<(), NoMemory>
    requires base { base ≤ most_base }
    requires few { length names.now ≤ most_parties }
    ensures { OnOk result (text.new.items
        ≡ text.old.items ++ name_text (x_of base (map (λ n. n.now) names.now) i) name.now) }
{
    let x = x_of(base, names, i);
    put_pieces(
        text,
        &[
            Plain(b"<text class='name' x='"),
            Number(x),
            Plain(b"' y='40'>"),
            Escaped(name),
            Plain(b"</text>\n"),
        ],
    )
}

fn put_lines(text: &mut Vec<u8>, layout: Layout, names: &[&[u8]]) -> Result<(), NoMemory>
    requires small { IsSmall layout }
    requires few { length names.now ≤ most_parties }
    ensures { OnOk result (text.new.items
        ≡ text.old.items ++ lines_text layout (map (λ n. n.now) names.now) 0 (map (λ n. n.now) names.now)) }
{
    for (i, _) in names.iter().enumerate() {
        put_line(text, layout, names, i)?;
    }
    Ok(())
}

// A party's line.
fn put_line(text: &mut Vec<u8>, layout: Layout, names: &[&[u8]], i: usize) -> Result<(), NoMemory>
    requires small { IsSmall layout }
    requires few { length names.now ≤ most_parties }
    ensures { OnOk result (text.new.items
        ≡ text.old.items ++ line_text layout (x_of layout.base (map (λ n. n.now) names.now) i)) }
{
    let x = x_of(layout.base, names, i);
    put_pieces(
        text,
        &[
            Plain(b"<path class='party' d='M "),
            Number(x),
            Plain(b" 50 V "),
            Number(layout.height - 28),
            Plain(b"'/>\n"),
        ],
    )
}

// The names once more, and the end.
fn put_foot(text: &mut Vec<u8>, layout: Layout) -> Result<(), NoMemory>
    requires { IsSmall layout }
    ensures { OnOk result (text.new.items ≡ text.old.items ++ foot_text layout) }
{
    put_pieces(
        text,
        &[
            Plain(b"<use href='#names' y='"),
            Number(layout.height - 52),
            Plain(b"'/>\n</svg>\n"),
        ],
    )
}
