//! The generated file after an old text.
use sj_generator::print_generated;
use std::test::Fail;

#[test]
fn it_stands_behind_the_old_text(rt: HostRuntime) -> Result<(), Fail> {
    let mut text = Vec::from_slice(rt.alloc(), b"old\n")?;
    print_generated(&mut text, 1000)?;
    assert!(rt; text.starts_with(b"old\nprotocol w { begin.![!<int>]*.?(int) }\n"));
    Ok(())
}
