//! What stands in a text after what was there.
use crate::{put, put_int, put_number};
use std::test::Fail;

#[test]
fn bytes_stand_behind_the_old_text(rt: HostRuntime) -> Result<(), Fail> {
    let mut text = Vec::from_slice(rt.alloc(), b"party ")?;
    put(&mut text, b"a {")?;
    put(&mut text, b"")?;
    put(&mut text, b"\n")?;
    assert_eq!(rt; text.as_slice(), b"party a {\n".as_slice());
    Ok(())
}

#[test]
fn numbers_are_decimal(rt: HostRuntime) -> Result<(), Fail> {
    let mut text = Vec::new(rt.alloc());
    put_number(&mut text, 0)?;
    put(&mut text, b" ")?;
    put_number(&mut text, u64::MAX)?;
    assert_eq!(rt; text.as_slice(), b"0 18446744073709551615".as_slice());
    Ok(())
}

#[test]
fn a_negative_number_has_its_minus(rt: HostRuntime) -> Result<(), Fail> {
    let mut text = Vec::new(rt.alloc());
    put_int(&mut text, 0)?;
    put(&mut text, b" ")?;
    put_int(&mut text, -70)?;
    put(&mut text, b" ")?;
    put_int(&mut text, i64::MIN)?;
    assert_eq!(rt; text.as_slice(), b"0 -70 -9223372036854775808".as_slice());
    Ok(())
}
