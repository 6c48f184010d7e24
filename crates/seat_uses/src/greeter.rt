//! A seat that sends a text that the file hasn't.

use crate::runs::{LOOKS, accepted_in};
use sj_base::{EndId, Msg, NoMemory};
use sj_lane::RingLinks;
use sj_seat::{Guard, SeatRefusal, Wish};
use sj_seat_end::{Told, run_to_end, told_with};
use sj_seat_run::{Answer, Ask, Outcome, Play};
use sj_seat_texts::Texts;
use sj_text::{put, put_int};
use sj_work::NoGate;
use std::alloc::Global;
use std::thread::Threads;

/// Takes a guest's number, and answers with a text that has the number in it.
#[derive(Drop)]
pub struct Greeter {
    pub alloc: Global,
    pub end: EndId,
    /// The texts of the run. Nobody else adds any.
    pub texts: Texts,
    /// How often it asks again for what hasn't come.
    pub patience: u32,
}

impl Greeter {
    // The number of the text.
    fn greeting(&mut self, guest: i64) -> Result<u32, NoMemory> {
        let mut text = Vec::new(self.alloc);
        put(&mut text, b"good morning, guest ")?;
        put_int(&mut text, guest)?;
        self.texts.number(&text)
    }
}

impl Play for Greeter {
    fn next(&mut self, seat: Guard<'_>, answer: Option<Answer>) -> Option<Ask> {
        let end = self.end;
        match answer {
            None => Some(Ask::Step(Wish::Take { end })),
            Some(
                Ok(
                    Outcome::Took {
                        msg: Msg::Int(guest),
                        ..
                    },
                ),
            ) => match self.greeting(guest) {
                Ok(number) => {
                    let msg = Msg::Text(number);
                    Some(Ask::Step(Wish::Send { end, msg }))
                }
                Err(NoMemory) => None,
            },
            // it was sent
            Some(Ok(_)) if !seat.ends.is_empty() => Some(Ask::Step(Wish::Close { end })),
            Some(Err(SeatRefusal::Waiting)) if self.patience > 0 => {
                self.patience = self.patience.saturating_sub(1);
                Some(Ask::Step(Wish::Take { end }))
            }
            Some(_) => None,
        }
    }
}

/// A run of the file in which a greeter plays the second party, and what the run reports: its texts
/// are those of the file, and those that the greeter added.
pub fn run_greeter<R: Threads + Sync>(rt: &R, alloc: Global, text: &[u8]) -> Option<Told> {
    let accepted = accepted_in(alloc, text)?;
    let texts = Texts::of(alloc, &accepted.file().names.texts).ok()?;
    let end = EndId { sess: 0, side: 1 };
    let patience = 10_000;
    let mut codes = Vec::new(alloc);
    codes.push(None).ok()?;
    codes
        .push(Some(Greeter {
            alloc,
            end,
            texts,
            patience,
        }))
        .ok()?;
    let mut links = RingLinks::new();
    let end = match run_to_end(
        rt,
        alloc,
        &accepted,
        codes,
        Texts::MOST,
        LOOKS,
        &mut links,
        &NoGate,
    ) {
        Ok(end) => end,
        Err(_) => return None,
    };
    let world = end.world;
    let mut codes = end.codes;
    match codes.pop() {
        Some(Some(greeter)) => { told_with(alloc, accepted.file(), greeter.texts, &world).ok() }
        _ => None,
    }
}

#[cfg(test)]
mod tests {
    use crate::run_greeter;
    use std::test::Fail;

    const HOUSE: &[u8] = b"protocol asks { begin.!<int>.?(String) }
protocol tells { begin.?(int).!<String> }
party guest { send x 7; recv x t String; close x; }
party host { recv y n int; send y \"welcome\"; close y; }
connect guest x asks to host y tells;
";

    const TRANSCRIPT: &[u8] = b"session 0 guest x host y
0.0 0 guest host int 7
0.1 0 host guest String \"good morning, guest 7\"
party guest ended 3
party host ended 3
done
";

    #[test]
    fn a_seat_sends_a_text_that_the_file_hasnt(rt: HostRuntime) -> Result<(), Fail> {
        let Some(told) = run_greeter(&rt, rt.alloc(), HOUSE) else {
            return Err(Fail::from("no run"));
        };
        assert_eq!(rt; told.text.as_slice(), TRANSCRIPT);
        Ok(())
    }
}
