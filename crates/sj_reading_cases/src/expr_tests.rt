//! Expressions with which a text begins, and what comes next.

use sj_expr::parse_expression;
use sj_lang::{Expr, Names, Op};
use sj_proto::Tokens;
use std::test::Fail;

#[test]
fn an_expression_ends_before_what_goes_on_with_none(rt: HostRuntime) -> Result<(), Fail> {
    let mut names = Names::new(rt.alloc());
    let mut tokens = Tokens::over(b"a - b * (a + \"t\") <= 5 < 6");
    let value = parse_expression(rt.alloc(), &mut tokens, &mut names)?;
    assert!(rt; matches!(value, Expr::Two(Op::LessEq, _, _)));
    assert!(rt; tokens.sees(b"<"));
    assert_eq!(rt; names.words.find(b"b"), Some(1));
    Ok(())
}
