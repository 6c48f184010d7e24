//! Two seats that open sessions: one requests, and the other accepts.

use sj_base::{EndId, Msg};
use sj_seat::{Guard, OpenWish, SeatRefusal, Wish};
use sj_seat_run::{Answer, Ask, Outcome, Play};

/// Requests the first session that its party's text requests, and takes a number on it.
#[derive(Drop)]
pub struct Client {
    /// Its end of the session, as long as that is open.
    pub end: Option<EndId>,
    pub number: Option<i64>,
    /// How often it asks again for what hasn't come.
    pub patience: u32,
}

/// The request of the first session that the party may request.
fn first_request(seat: Guard<'_>) -> Option<Ask> {
    match seat.may.requests.first() {
        Some(opening) => Some(Ask::Open(OpenWish::Request {
            party: opening.party,
            protocol: opening.protocol,
        })),
        None => None,
    }
}

impl Play for Client {
    fn next(&mut self, seat: Guard<'_>, answer: Option<Answer>) -> Option<Ask> {
        match answer {
            None => return first_request(seat),
            Some(
                Ok(
                    Outcome::Took {
                        msg: Msg::Int(number),
                        ..
                    },
                ),
            ) => self.number = Some(number),
            Some(Ok(Outcome::Opened { end })) => self.end = Some(end),
            Some(Err(SeatRefusal::Waiting)) if self.patience > 0 => {
                self.patience = self.patience.saturating_sub(1);
            }
            Some(Err(_)) => return None,
            _ => {}
        }
        let end = self.end?;
        if self.number.is_none() {
            return Some(Ask::Step(Wish::Take { end }));
        }
        self.end = None;
        Some(Ask::Step(Wish::Close { end }))
    }
}

/// Accepts a session of those that its party's text accepts first, and sends a number on it. It holds
/// an end beside, on which nothing is done.
#[derive(Drop)]
pub struct Server {
    pub number: i64,
    pub served: bool,
    /// How often it asks again for what hasn't come.
    pub patience: u32,
}

/// The accept of the first session that the party may accept.
fn first_accept(seat: Guard<'_>) -> Option<Ask> {
    match seat.may.accepts.first() {
        Some(opening) => Some(Ask::Open(OpenWish::Accept {
            party: opening.party,
            protocol: opening.protocol,
        })),
        None => None,
    }
}

impl Play for Server {
    fn next(&mut self, seat: Guard<'_>, answer: Option<Answer>) -> Option<Ask> {
        match answer {
            None => first_accept(seat),
            Some(Ok(Outcome::Opened { end })) => {
                self.served = true;
                let msg = Msg::Int(self.number);
                Some(Ask::Step(Wish::Send { end, msg }))
            }
            Some(Err(SeatRefusal::Waiting)) if self.patience > 0 => {
                self.patience = self.patience.saturating_sub(1);
                first_accept(seat)
            }
            // it was sent: the session is over
            Some(Ok(_)) => {
                for held in seat.ends {
                    if seat.table.is_done(held.place) {
                        return Some(Ask::Step(Wish::Close { end: held.end }));
                    }
                }
                None
            }
            Some(Err(_)) => None,
        }
    }
}

#[cfg(test)]
mod tests {
    use crate::{Client, Server, run_codes};
    use std::test::Fail;

    const ONE: &[u8] = b"protocol asks { begin.?(int) }
protocol tells { begin.!<int> }
party client { request x asks to server; recv x n int; close x; send d 1; close d; }
party server { accept y tells from client; send y 7; close y; recv e m int; close e; }
connect client d tells to server e asks;
";

    #[test]
    fn a_seat_requests_a_session_of_the_file(rt: HostRuntime) -> Result<(), Fail> {
        let mut codes = Vec::new(rt.alloc());
        codes.push(Some(Client {
            end: None,
            number: None,
            patience: 10_000,
        }))?;
        let Ok(run) = run_codes(&rt, rt.alloc(), ONE, codes) else {
            return Err(Fail::from("no run"));
        };
        let Some(Some(client)) = run.codes.get(0) else {
            return Err(Fail::from("no code"));
        };
        assert_eq!(rt; client.number, Some(7));
        Ok(())
    }

    #[test]
    fn a_seat_accepts_a_session_of_the_file(rt: HostRuntime) -> Result<(), Fail> {
        let mut codes = Vec::new(rt.alloc());
        codes.push(None)?;
        codes.push(Some(Server {
            number: 9,
            served: false,
            patience: 1_000,
        }))?;
        let Ok(run) = run_codes(&rt, rt.alloc(), ONE, codes) else {
            return Err(Fail::from("no run"));
        };
        let Some(Some(server)) = run.codes.get(1) else {
            return Err(Fail::from("no code"));
        };
        assert_eq!(rt; server.served, true);
        Ok(())
    }
}
