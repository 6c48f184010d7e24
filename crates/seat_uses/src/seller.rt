//! A seat that answers a customer.

use sj_base::{EndId, Msg};
use sj_seat::{Guard, SeatRefusal, Wish};
use sj_seat_run::{Answer, Ask, Outcome, Play};

/// Takes how many things a customer wants, and answers whether there are as many.
#[derive(Drop)]
pub struct Seller {
    pub end: EndId,
    pub stock: i64,
    /// How often it asks again for what hasn't come.
    pub patience: u32,
}

impl Play for Seller {
    fn next(&mut self, seat: Guard<'_>, answer: Option<Answer>) -> Option<Ask> {
        let end = self.end;
        match answer {
            None => Some(Ask::Step(Wish::Take { end })),
            Some(
                Ok(
                    Outcome::Took {
                        msg: Msg::Int(wanted),
                        ..
                    },
                ),
            ) => {
                let enough = 0 <= wanted && wanted <= self.stock;
                if enough {
                    self.stock = self.stock.saturating_sub(wanted);
                }
                let msg = Msg::Bool(enough);
                Some(Ask::Step(Wish::Send { end, msg }))
            }
            // it was sent
            Some(Ok(_)) if !seat.ends.is_empty() => Some(Ask::Step(Wish::Close { end })),
            Some(Err(SeatRefusal::Waiting)) if self.patience > 0 => {
                self.patience = self.patience.saturating_sub(1);
                Some(Ask::Step(Wish::Take { end }))
            }
            Some(_) => None,
        }
    }
}

#[cfg(test)]
mod tests {
    use crate::{Seller, run_codes};
    use sj_base::EndId;
    use std::test::Fail;

    const SHOP: &[u8] = b"protocol asks { begin.!<int>.?(boolean) }
protocol tells { begin.?(int).!<boolean> }
party customer { send x 4; recv x enough boolean; close x; }
party seller { recv y n int; send y false; close y; }
connect customer x asks to seller y tells;
";

    #[test]
    fn a_seat_answers_a_customer_of_the_file(rt: HostRuntime) -> Result<(), Fail> {
        let mut codes = Vec::new(rt.alloc());
        codes.push(None)?;
        codes.push(Some(Seller {
            end: EndId { sess: 0, side: 1 },
            stock: 5,
            patience: 10_000,
        }))?;
        let Ok(run) = run_codes(&rt, rt.alloc(), SHOP, codes) else {
            return Err(Fail::from("no run"));
        };
        let Some(Some(seller)) = run.codes.get(1) else {
            return Err(Fail::from("no code"));
        };
        assert_eq!(rt; seller.stock, 1);
        Ok(())
    }
}
