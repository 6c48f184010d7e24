//! What expressions are worth, over a table of variables.
ghost use Rattle.std.specs.Prelude.{◌≡◌, ◌<◌, length};
ghost use Rattle.sj_lang.specs.CodeView.{term_of};
ghost use Rattle.sj_machine.specs.Table.{vars_in};
ghost use Rattle.sj_semantics.specs.Value.{negation_of, result_of, turns_of, with_value, worth};

use sj_lang::{Expr, Op};
use sj_semantics::Value;

/// What an expression is worth. None where a variable isn't known, or an operand is of another
/// kind.
pub fn worth_of(vars: &[Option<Value>], e: &Expr) -> Option<Value>
    ensures { result ≡ worth (vars_in vars.now) (term_of e.now) }
{
    match e {
        Expr::Int(n) => Some(Value::Int(*n)),
        Expr::Bool(b) => Some(Value::Boolean(*b)),
        Expr::Text(n) => Some(Value::Text(*n)),
        Expr::Var(n) => value_at(vars, *n),
        Expr::Not(f) => match worth_of(vars, f) {
            Some(v) => negation(v),
            None => None,
        },
        Expr::Two(op, f, g) => match worth_of(vars, f) {
            Some(a) => match worth_of(vars, g) {
                Some(b) => outcome(*op, a, b),
                None => None,
            },
            None => None,
        },
    }
}

/// The value of a variable.
fn value_at(vars: &[Option<Value>], name: u16) -> Option<Value>
    ensures { result ≡ vars_in vars.now name }
{
    let at = name as usize;
    if at < vars.len() { vars[at] } else { None }
}

/// The other truth value.
fn negation(v: Value) -> Option<Value>
    ensures { result ≡ negation_of v }
{
    match v {
        Value::Boolean(b) => Some(Value::Boolean(!b)),
        _ => None,
    }
}

/// The result of an operator. None where an operand is of another kind.
fn outcome(op: Op, a: Value, b: Value) -> Option<Value>
    ensures { result ≡ result_of op a b }
{
    match (op, a, b) {
        (Op::Add, Value::Int(a), Value::Int(b)) => Some(Value::Int(a.wrapping_add(b))),
        (Op::Sub, Value::Int(a), Value::Int(b)) => Some(Value::Int(a.wrapping_sub(b))),
        (Op::Mul, Value::Int(a), Value::Int(b)) => Some(Value::Int(a.wrapping_mul(b))),
        (Op::Less, Value::Int(a), Value::Int(b)) => Some(Value::Boolean(a < b)),
        (Op::LessEq, Value::Int(a), Value::Int(b)) => Some(Value::Boolean(a <= b)),
        (Op::Equal, Value::Int(a), Value::Int(b)) => Some(Value::Boolean(a == b)),
        (Op::Equal, Value::Boolean(a), Value::Boolean(b)) => Some(Value::Boolean(a == b)),
        (Op::Equal, Value::Text(a), Value::Text(b)) => Some(Value::Boolean(a == b)),
        _ => None,
    }
}

/// Gives a variable its value.
pub fn assign(vars: &mut [Option<Value>], name: u16, value: Value)
    requires { name < length vars.old }
    ensures { vars_in vars.new ≡ with_value (vars_in vars.old) name value }
{
    vars[name as usize] = Some(value);
}

/// How often a loop of that count turns, from 0 to 1,000 times. None where it is no number.
pub fn turns(count: Value) -> Option<u16>
    ensures { result ≡ turns_of count }
{
    match count {
        Value::Int(n) => {
            if n <= 0 {
                Some(0)
            } else if n < 1000 {
                Some(n as u16)
            } else {
                Some(1000)
            }
        }
        _ => None,
    }
}
