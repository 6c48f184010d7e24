//! A seat whose code misuses an end, and goes on.

use sj_seat::{Guard, SeatRefusal, Wish};
use sj_seat_run::{Answer, Ask, Play};

/// Asks for one thing after another, whatever became of the last one, and keeps the refusals.
#[derive(Drop)]
pub struct Clumsy {
    pub wishes: Vec<Wish>,
    pub refused: Vec<SeatRefusal>,
    next: usize,
}

impl Clumsy {
    pub fn new(wishes: Vec<Wish>, refused: Vec<SeatRefusal>) -> Clumsy {
        Clumsy {
            wishes,
            refused,
            next: 0,
        }
    }
}

impl Play for Clumsy {
    fn next(&mut self, _seat: Guard<'_>, answer: Option<Answer>) -> Option<Ask> {
        if let Some(Err(refusal)) = answer {
            if self.refused.push(refusal).is_err() {
                return None;
            }
        }
        let wish = self.wishes.get(self.next).copied();
        self.next = self.next.saturating_add(1);
        match wish {
            Some(wish) => Some(Ask::Step(wish)),
            None => None,
        }
    }
}

#[cfg(test)]
mod tests {
    use crate::{Clumsy, run_codes};
    use sj_base::{EndId, Msg};
    use sj_seat::{SeatRefusal, Wish};
    use std::test::Fail;

    const FIRST: &[u8] = b"protocol p { begin.!<int> }
protocol q { begin.?(int) }
party a { send x 5; close x; }
party b { recv y n int; close y; }
connect a x p to b y q;
";

    #[test]
    fn code_misuses_an_end_and_goes_on(rt: HostRuntime) -> Result<(), Fail> {
        let end = EndId { sess: 0, side: 0 };
        let other = EndId { sess: 0, side: 1 };
        let mut wishes = Vec::new(rt.alloc());
        wishes.extend_from_slice(&[
            Wish::Take { end: other },
            Wish::Take { end },
            Wish::Send {
                end,
                msg: Msg::Bool(true),
            },
            Wish::Send {
                end,
                msg: Msg::Int(5),
            },
            Wish::Close { end },
            Wish::Close { end },
        ])?;
        let mut codes = Vec::new(rt.alloc());
        codes.push(Some(Clumsy::new(wishes, Vec::new(rt.alloc()))))?;
        let Ok(run) = run_codes(&rt, rt.alloc(), FIRST, codes) else {
            return Err(Fail::from("no run"));
        };
        let Some(Some(clumsy)) = run.codes.get(0) else {
            return Err(Fail::from("no code"));
        };
        let refused: &[SeatRefusal] = &[
            SeatRefusal::NotHeld,
            SeatRefusal::BeginsOtherwise,
            SeatRefusal::WrongKind,
            SeatRefusal::NotHeld,
        ];
        assert_eq!(rt; clumsy.refused.as_slice(), refused);
        Ok(())
    }
}
