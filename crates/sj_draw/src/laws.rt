//! Laws of pictures; each is the one clause of a function that does nothing.
//!
//! - `each_delivery_is_drawn_once`: the arrows are those of the lines, in order.
//! - `no_picture_outgrows_its_lines`: how long a picture is at most.

ghost use Rattle.std.specs.Prelude.{◌≡◌, ◌≤◌, ◌+◌, ◌*◌, ℕ, List, ◌++◌, length, map};
ghost use Rattle.std.specs.List.{filter_map};
ghost use Rattle.sj_draw.specs.declared.style.TheConstants.{STYLE};
ghost use Rattle.sj_draw.specs.Answer.{lines_of, outcome_of};
ghost use Rattle.sj_draw.specs.Drawn.{picture};
ghost use Rattle.sj_draw.specs.Chart.{ChartAt, Gathered, gathered};
ghost use Rattle.sj_draw.specs.Told.{HasNoLog, told_arrow, told_in};
ghost use Rattle.sj_draw.specs.Small.{most_of_chart, most_of_line};

/// After what was gathered before, lines add one arrow for each message, opening or delivery, in
/// order, and no other. So it is for a transcript, and for the lines after `%%log` or `%%log2`.
pub fn each_delivery_is_drawn_once()
    ensures { (f g : ChartAt) (n : ℕ) (lines : List (List ℕ)) → HasNoLog lines → gathered f n lines ≡ Gathered g
        → map told_arrow g.arrows ≡ map told_arrow f.arrows ++ filter_map told_in lines }
{}

/// A picture has at most 10,440 bytes for each line, beyond its style and 10,000 bytes.
pub fn no_picture_outgrows_its_lines()
    ensures { (bytes : List ℕ) (g : ChartAt) → outcome_of bytes ≡ Gathered g
        → length (picture g) ≤ length STYLE.now + (most_of_chart + most_of_line * length (lines_of bytes)) }
{}
