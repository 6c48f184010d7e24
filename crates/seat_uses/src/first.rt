//! A seat that takes from whichever end has something first, which no party of a file can.

use sj_base::Msg;
use sj_seat::{Guard, SeatRefusal, Wish};
use sj_seat_run::{Answer, Ask, Outcome, Play};
use std::alloc::Global;

/// Takes numbers on all ends that it holds, from whichever has one first, and closes each end of
/// which nothing is ahead.
#[derive(Drop)]
pub struct Firsts {
    alloc: Global,
    /// The sum of the numbers that it took.
    pub sum: i64,
    /// How often it asks again for what hasn't come.
    patience: u32,
}

impl Firsts {
    pub fn new(alloc: Global) -> Firsts {
        Firsts {
            alloc,
            sum: 0,
            patience: 10_000,
        }
    }

    /// A take from the first end on which something is.
    fn take_any(&self, seat: Guard<'_>) -> Option<Ask> {
        let mut ends = Vec::new(self.alloc);
        for held in seat.ends {
            if ends.push(held.end).is_err() {
                return None;
            }
        }
        Some(Ask::TakeAny(ends))
    }
}

impl Play for Firsts {
    fn next(&mut self, seat: Guard<'_>, answer: Option<Answer>) -> Option<Ask> {
        match answer {
            Some(
                Ok(
                    Outcome::Took {
                        msg: Msg::Int(number),
                        ..
                    },
                ),
            ) => self.sum = self.sum.wrapping_add(number),
            Some(Err(SeatRefusal::Waiting)) if self.patience > 0 => {
                self.patience = self.patience.saturating_sub(1);
            }
            Some(Err(_)) => return None,
            _ => {}
        }
        for held in seat.ends {
            if seat.table.is_done(held.place) {
                return Some(Ask::Step(Wish::Close { end: held.end }));
            }
        }
        if seat.ends.is_empty() {
            return None;
        }
        self.take_any(seat)
    }
}

#[cfg(test)]
mod tests {
    use crate::{Firsts, run_codes};
    use std::test::Fail;

    const TWO: &[u8] = b"protocol gives { begin.!<int> }
protocol gets { begin.?(int) }
party slow { recv w n int; send x n; close w; close x; }
party quick { send v 3; send y 4; close v; close y; }
party seat { recv u n int; recv z m int; close u; close z; }
connect slow x gives to seat u gets;
connect quick y gives to seat z gets;
connect quick v gives to slow w gets;
";

    #[test]
    fn a_seat_takes_from_whichever_end_is_first(rt: HostRuntime) -> Result<(), Fail> {
        let mut codes = Vec::new(rt.alloc());
        codes.push(None)?;
        codes.push(None)?;
        codes.push(Some(Firsts::new(rt.alloc())))?;
        let Ok(run) = run_codes(&rt, rt.alloc(), TWO, codes) else {
            return Err(Fail::from("no run"));
        };
        let Some(Some(firsts)) = run.codes.get(2) else {
            return Err(Fail::from("no code"));
        };
        assert_eq!(rt; firsts.sum, 7);
        Ok(())
    }
}
