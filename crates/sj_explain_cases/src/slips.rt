//! Slips of beginners, each with what is said of it.

use sj_explain::{Looks, why};
use std::alloc::Global;
use std::process::Abort;
use std::test::Fail;

/// A file with a slip, and its whole answer.
#[derive(Clone, Copy)]
pub(crate) struct Slip {
    pub name: &'static str,
    pub source: &'static [u8],
    pub answer: &'static [u8],
}

/// Each is answered so.
pub(crate) fn check_slips(rt: &impl Abort, alloc: Global, slips: &[Slip]) -> Result<(), Fail> {
    let looks = Looks {
        drawn: false,
        coloured: false,
    };
    for slip in slips {
        assert!(rt; slip.source.len() <= 65_536, "{}", slip.name);
        let told = why(alloc, looks, slip.source)?;
        assert_eq!(rt; told.text.as_slice(), slip.answer, "{}", slip.name);
    }
    Ok(())
}
