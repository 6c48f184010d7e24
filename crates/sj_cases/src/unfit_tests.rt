//! Two parties that get what doesn't fit, and lanes that fail in the midst of a run.
use crate::Odd;
use crate::calls::answer_over;
use crate::files::FIRST;
use sj_base::{EndId, Msg};
use sj_end::{Body, Frame};
use std::test::Fail;

// A Carry to the end of that side.
fn carry(side: u8, number: u32, value: i64) -> Frame {
    Frame {
        clock: 1,
        body: Body::Carry {
            to: EndId { sess: 0, side },
            conn: 0,
            number,
            taken: 0,
            msg: Msg::Int(value),
        },
    }
}

#[test]
fn the_lower_of_two_unfit_parties_is_told(rt: HostRuntime) -> Result<(), Fail> {
    let mut links = Odd {
        frames: [Some(carry(0, 3, 7)), Some(carry(1, 4, 8))],
        pushes: 9,
        fails: false,
    };
    let (status, out) = answer_over(&rt, rt.alloc(), &["run"], FIRST.as_bytes(), &mut links)?;
    let damaged: &[u8] = b"damaged entry 1 logged 2 a from b carry 0.0 0 3 0 int 7 due none\n";
    assert_eq!(rt; out.text(), damaged);
    assert_eq!(rt; status, 9);
    Ok(())
}

#[test]
fn what_is_unfit_is_told_behind_all_lines(rt: HostRuntime) -> Result<(), Fail> {
    let mut links = Odd {
        frames: [None, Some(carry(1, 4, 8))],
        pushes: 9,
        fails: false,
    };
    let (status, out) = answer_over(&rt, rt.alloc(), &["run"], FIRST.as_bytes(), &mut links)?;
    let damaged: &[u8] =
        b"damaged entry 3 logged 2 b from a carry 0.1 0 4 0 int 8 due 2 b from a carry 0.1 0 0 0 int 5\n";
    assert_eq!(rt; out.text(), damaged);
    assert_eq!(rt; status, 9);
    Ok(())
}

// A push of the first party fails after one that was taken. A pop of the second one fails after a
// frame that fits. It does so, too, while the first party gets what doesn't fit.
#[test]
fn a_lane_fails_in_the_midst_of_a_run(rt: HostRuntime) -> Result<(), Fail> {
    let rows: [(Option<Frame>, u64, bool); 3] = [
        (None, 1, false),
        (None, 9, true),
        (Some(carry(0, 3, 7)), 9, true),
    ];
    for (first, pushes, fails) in rows {
        let mut links = Odd {
            frames: [first, Some(carry(1, 0, 5))],
            pushes,
            fails,
        };
        let (status, out) = answer_over(&rt, rt.alloc(), &["run"], FIRST.as_bytes(), &mut links)?;
        assert_eq!(rt; out.text(), b"link fault\n".as_slice(), "{pushes} {fails}");
        assert_eq!(rt; status, 8, "{pushes} {fails}");
    }
    Ok(())
}
