//! Two seats that talk to each other, each with code of its own.

use crate::Seller;
use sj_base::{EndId, Msg};
use sj_seat::{Guard, SeatRefusal, Wish};
use sj_seat_run::{Answer, Ask, Outcome, Play};

/// Asks for a number of things, and learns whether there are as many.
#[derive(Drop)]
pub struct Customer {
    pub end: EndId,
    pub wants: i64,
    pub enough: Option<bool>,
    /// How often it asks again for what hasn't come.
    pub patience: u32,
}

impl Play for Customer {
    fn next(&mut self, seat: Guard<'_>, answer: Option<Answer>) -> Option<Ask> {
        let end = self.end;
        match answer {
            None => {
                let msg = Msg::Int(self.wants);
                Some(Ask::Step(Wish::Send { end, msg }))
            }
            Some(
                Ok(
                    Outcome::Took {
                        msg: Msg::Bool(enough),
                        ..
                    },
                ),
            ) => {
                self.enough = Some(enough);
                Some(Ask::Step(Wish::Close { end }))
            }
            // it was sent: the answer now
            Some(Ok(_)) if !seat.ends.is_empty() => Some(Ask::Step(Wish::Take { end })),
            Some(Err(SeatRefusal::Waiting)) if self.patience > 0 => {
                self.patience = self.patience.saturating_sub(1);
                Some(Ask::Step(Wish::Take { end }))
            }
            Some(_) => None,
        }
    }
}

/// The codes of a run have one type. Here it has two kinds.
#[derive(Drop)]
pub enum Talker {
    Asks(Customer),
    Answers(Seller),
}

impl Play for Talker {
    fn next(&mut self, seat: Guard<'_>, answer: Option<Answer>) -> Option<Ask> {
        match self {
            Talker::Asks(customer) => customer.next(seat, answer),
            Talker::Answers(seller) => seller.next(seat, answer),
        }
    }
}

#[cfg(test)]
mod tests {
    use crate::{Customer, Seller, Talker, run_codes};
    use sj_base::EndId;
    use std::test::Fail;

    const SHOP: &[u8] = b"protocol asks { begin.!<int>.?(boolean) }
protocol tells { begin.?(int).!<boolean> }
party customer { send x 4; recv x enough boolean; close x; }
party seller { recv y n int; send y false; close y; }
connect customer x asks to seller y tells;
";

    #[test]
    fn two_seats_talk_to_each_other(rt: HostRuntime) -> Result<(), Fail> {
        let mut codes = Vec::new(rt.alloc());
        codes.push(Some(Talker::Asks(Customer {
            end: EndId { sess: 0, side: 0 },
            wants: 7,
            enough: None,
            patience: 10_000,
        })))?;
        codes.push(Some(Talker::Answers(Seller {
            end: EndId { sess: 0, side: 1 },
            stock: 5,
            patience: 10_000,
        })))?;
        let Ok(run) = run_codes(&rt, rt.alloc(), SHOP, codes) else {
            return Err(Fail::from("no run"));
        };
        let Some(Some(Talker::Asks(customer))) = run.codes.get(0) else {
            return Err(Fail::from("no code"));
        };
        assert_eq!(rt; customer.enough, Some(false));
        Ok(())
    }
}
