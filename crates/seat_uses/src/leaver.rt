//! A seat that leaves with an end open.

use sj_base::{EndId, Msg};
use sj_seat::{Guard, Wish};
use sj_seat_run::{Answer, Ask, Play};

/// Sends one number on the end, and leaves.
#[derive(Drop)]
pub struct Leaver {
    pub end: EndId,
}

impl Play for Leaver {
    fn next(&mut self, _seat: Guard<'_>, answer: Option<Answer>) -> Option<Ask> {
        match answer {
            None => Some(Ask::Step(Wish::Send {
                end: self.end,
                msg: Msg::Int(5),
            })),
            Some(_) => None,
        }
    }
}

#[cfg(test)]
mod tests {
    use crate::{Leaver, run_codes};
    use sj_base::EndId;
    use std::test::Fail;

    const TWICE: &[u8] = b"protocol p { begin.!<int>.!<int> }
protocol q { begin.?(int).?(int) }
party a { send x 5; send x 6; close x; }
party b { recv y n int; recv y n int; close y; }
connect a x p to b y q;
";

    #[test]
    fn the_world_has_an_end_that_is_left_open(rt: HostRuntime) -> Result<(), Fail> {
        let end = EndId { sess: 0, side: 0 };
        let mut codes = Vec::new(rt.alloc());
        codes.push(Some(Leaver { end }))?;
        let Ok(run) = run_codes(&rt, rt.alloc(), TWICE, codes) else {
            return Err(Fail::from("no run"));
        };
        if run.world.parties() < 1 {
            return Err(Fail::from("no party"));
        }
        let Some(ends) = run.world.ends(0) else {
            return Err(Fail::from("no code"));
        };
        let Some(left) = ends.get(0) else {
            return Err(Fail::from("no end"));
        };
        assert_eq!(rt; left.end, end);
        Ok(())
    }
}
