//! Lines as a party's code.
use sj_base::{Sink, Source};
use sj_seat::{Answer, Ask, Guard};
use sj_seat_lines::Lines;
use sj_seat_run::Play;

/// Code that goes by lines.
#[derive(Drop)]
pub(crate) struct ByLines<'a, S, K> {
    pub lines: Lines<'a, S, K>,
}

impl<S: Source + Drop, K: Sink + Drop> Play for ByLines<'_, S, K> {
    fn next(&mut self, seat: Guard<'_>, answer: Option<Answer>) -> Option<Ask> {
        self.lines.next(seat, answer)
    }
}
