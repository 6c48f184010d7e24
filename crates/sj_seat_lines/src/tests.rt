use crate::{Form, form_in};
use std::test::Fail;

// The number of the form that the line has: 0 where it has none.
fn form_number(line: &[u8]) -> u8 {
    match form_in(line) {
        None => 0,
        Some(Form::Talk(_)) => 1,
        Some(Form::Request(_, _, _)) => 2,
        Some(Form::Accept(_, _, _)) => 3,
        Some(Form::TakeAny(_)) => 4,
        Some(Form::Ahead(_)) => 5,
        Some(Form::Ends) => 6,
        Some(Form::Leave) => 7,
        Some(Form::Ready(_)) => 8,
    }
}

#[test]
fn each_line_has_its_form(rt: HostRuntime) -> Result<(), Fail> {
    assert_eq!(rt; form_number(b"send x 5"), 1);
    assert_eq!(rt; form_number(b"request x p to c"), 2);
    assert_eq!(rt; form_number(b"accept x p from c"), 3);
    assert_eq!(rt; form_number(b"take any x y"), 4);
    assert_eq!(rt; form_number(b"ahead x"), 5);
    assert_eq!(rt; form_number(b"ends"), 6);
    assert_eq!(rt; form_number(b"leave"), 7);
    assert_eq!(rt; form_number(b"ready x"), 8);
    Ok(())
}

#[test]
fn one_name_after_any_is_a_line_of_a_talk(rt: HostRuntime) -> Result<(), Fail> {
    assert_eq!(rt; form_number(b"take any x"), 1);
    Ok(())
}

#[test]
fn other_lines_have_no_form(rt: HostRuntime) -> Result<(), Fail> {
    assert_eq!(rt; form_number(b""), 0);
    assert_eq!(rt; form_number(b"ends x"), 0);
    assert_eq!(rt; form_number(b"ahead"), 0);
    assert_eq!(rt; form_number(b"ready x y"), 0);
    assert_eq!(rt; form_number(b"request x p from c"), 0);
    assert_eq!(rt; form_number(b"accept x p to c"), 0);
    Ok(())
}
