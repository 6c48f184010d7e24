//! A seat that goes on with its own work as long as nothing is there for it.

use sj_base::{EndId, Msg};
use sj_seat::{Guard, Wish};
use sj_seat_run::{Answer, Ask, Outcome, Play};

/// Looks whether a number is there, works on as long as none is, and takes it then.
#[derive(Drop)]
pub struct Busy {
    pub end: EndId,
    /// How many pieces of its own work it did.
    pub pieces: u32,
    /// The number that it took.
    pub number: Option<i64>,
    /// How many pieces it does at most.
    pub patience: u32,
}

impl Play for Busy {
    fn next(&mut self, _seat: Guard<'_>, answer: Option<Answer>) -> Option<Ask> {
        let end = self.end;
        match answer {
            None => Some(Ask::Ready { end }),
            Some(Ok(Outcome::Ready(true))) => Some(Ask::Step(Wish::Take { end })),
            Some(Ok(Outcome::Ready(false))) if self.pieces < self.patience => {
                self.pieces = self.pieces.saturating_add(1);
                Some(Ask::Ready { end })
            }
            Some(
                Ok(
                    Outcome::Took {
                        msg: Msg::Int(number),
                        ..
                    },
                ),
            ) => {
                self.number = Some(number);
                Some(Ask::Step(Wish::Close { end }))
            }
            Some(_) => None,
        }
    }
}

#[cfg(test)]
mod tests {
    use crate::{Busy, run_codes};
    use sj_base::EndId;
    use std::test::Fail;

    const GIFT: &[u8] = b"protocol gives { begin.!<int> }
protocol gets { begin.?(int) }
party giver { send x 8; close x; }
party busy { recv y n int; close y; }
connect giver x gives to busy y gets;
";

    #[test]
    fn a_seat_works_until_something_is_there(rt: HostRuntime) -> Result<(), Fail> {
        let mut codes = Vec::new(rt.alloc());
        codes.push(None)?;
        codes.push(Some(Busy {
            end: EndId { sess: 0, side: 1 },
            pieces: 0,
            number: None,
            patience: 1_000_000,
        }))?;
        let Ok(run) = run_codes(&rt, rt.alloc(), GIFT, codes) else {
            return Err(Fail::from("no run"));
        };
        let Some(Some(busy)) = run.codes.get(1) else {
            return Err(Fail::from("no code"));
        };
        assert_eq!(rt; busy.number, Some(8));
        Ok(())
    }
}
