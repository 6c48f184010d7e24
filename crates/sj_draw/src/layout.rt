//! Where the parties' lines and the arrows stand, in a picture's own unit.
ghost use Rattle.std.specs.Prelude.{◌≡◌, ◌≤◌, IsTrue, map, length};
ghost use Rattle.sj_draw.specs.Chart.{is_within, most_arrows, most_parties};
ghost use Rattle.sj_draw.specs.Columns.{base_of, half_of, x_of, tip_of, letters_of};
ghost use Rattle.sj_draw.specs.Drawn.{layout_of, row_of, width_of};
ghost use Rattle.sj_draw.specs.Small.{IsSmall, most_base, most_width, most_x, most_tip};
ghost use Rattle.sj_draw.specs.Views.{chart_at};

use crate::chart::Chart;

/// The most bytes of a party's name.
const MOST_NAME: usize = 64;

/// After so many rows the names stand again.
const ROWS_OF_NAMES: usize = 40;

/// The sizes of a picture.
#[derive(Clone, Copy)]
pub(crate) struct Layout {
    /// The least half of a column.
    pub base: u64,
    pub width: u64,
    pub height: u64,
}

/// The sizes of the picture of a chart.
pub(crate) fn layout_of(chart: &Chart<'_>) -> Layout
    requires { IsTrue (is_within (chart_at chart.now)) }
    ensures layout { result ≡ layout_of (chart_at chart.now) }
    ensures small { IsSmall result }
{
    let base = base_of(chart);
    let width = width_of(chart, base);
    let height = row_of(chart.arrows.len()) + 100;
    Layout {
        base,
        width,
        height,
    }
}

// The least half of a column. A letter is at most 8 wide.
fn base_of(chart: &Chart<'_>) -> u64
    requires { IsTrue (is_within (chart_at chart.now)) }
    ensures base { result ≡ base_of (chart_at chart.now) }
    ensures bound { result ≤ most_base }
{
    let texts = 4 * chart.texts as u64 + 24;
    let share = 1_200 / chart.parties.len().max(1) as u64;
    texts.min(share).max(80)
}

// All columns, and room right of the last one for an arrow that goes to no other party.
fn width_of(chart: &Chart<'_>, base: u64) -> u64
    requires within { IsTrue (is_within (chart_at chart.now)) }
    requires base { base ≡ base_of (chart_at chart.now) }
    requires low { base ≤ most_base }
    ensures width { result ≡ width_of (chart_at chart.now) }
    ensures bound { result ≤ most_width }
{
    let columns = x_of(base, &chart.parties, chart.parties.len());
    let side = if chart.hooks { base } else { 0 };
    (columns + side).max(640)
}

/// How far down the row of that number begins.
pub(crate) fn row_of(k: usize) -> u64
    requires { k ≤ most_arrows }
    ensures row { result ≡ row_of k }
    ensures bound { result ≤ 28700000 }
{
    28 * (k + k / ROWS_OF_NAMES) as u64
}

// Half of the column of a party.
fn half_of(base: u64, name: &[u8]) -> u64
    requires { base ≤ most_base }
    ensures half { result ≡ half_of base name.now }
    ensures bound { result ≤ most_base }
{
    (4 * name.len().min(MOST_NAME) as u64 + 12).max(base)
}

/// Where the line of the party of that number stands; the width of all columns where there is none.
pub(crate) fn x_of(base: u64, names: &[&[u8]], party: usize) -> u64
    requires base { base ≤ most_base }
    requires few { length names.now ≤ most_parties }
    ensures x { result ≡ x_of base (map (λ n. n.now) names.now) party }
    ensures bound { result ≤ most_x }
{
    let mut x = 0;
    let mut left = party;
    for name in names {
        let half = half_of(base, name);
        if left == 0 {
            return x + half;
        }
        x += 2 * half;
        left -= 1;
    }
    x
}

/// Where an arrow ends.
pub(crate) fn tip_of(base: u64, names: &[&[u8]], from: usize, to: Option<usize>) -> u64
    requires base { base ≤ most_base }
    requires few { length names.now ≤ most_parties }
    ensures x { result ≡ tip_of base (map (λ n. n.now) names.now) from to }
    ensures bound { result ≤ most_tip }
{
    match to {
        Some(to) => x_of(base, names, to),
        None => x_of(base, names, from) + 40,
    }
}

/// How many letters fit above an arrow with those ends.
pub(crate) fn letters_of(base: u64, start: u64, tip: u64) -> usize
    requires base { base ≤ most_base }
    requires start { start ≤ most_tip }
    requires tip { tip ≤ most_tip }
    ensures { result ≡ letters_of base start tip }
{
    let span = start.max(tip) - start.min(tip);
    (span.max(2 * base).saturating_sub(20) / 8) as usize
}
