//! Kinds of bytes.
ghost use Rattle.std.specs.Prelude.{◌≡◌, ◌+◌, ◌≤◌, length, drop};
ghost use Rattle.std.specs.List.{prefix_len};
ghost use Rattle.sj_grammar.specs.Bytes.{is_blank, is_symbol};
ghost use Rattle.sj_grammar.specs.Classes.{in_class};

use sj_grammar::{Class, is_in};

pub fn is_blank_byte(b: u8) -> bool
    ensures { result ≡ is_blank b }
{
    b == b' ' || b == b'\t' || b == b'\n' || b == b'\r'
}

pub fn is_symbol_byte(b: u8) -> bool
    ensures { result ≡ is_symbol b }
{
    matches!(
        b,
        b'!' | b'?'
            | b'<'
            | b'>'
            | b'('
            | b')'
            | b'{'
            | b'}'
            | b'['
            | b']'
            | b'*'
            | b'.'
            | b','
            | b':'
            | b';'
            | b'+'
            | b'-'
            | b'='
    )
}

/// Where the run of such bytes that begins there ends.
pub fn run_end(bytes: &[u8], at: usize, class: Class) -> usize
    requires { at ≤ length bytes.now }
    ensures end { result ≡ at + prefix_len (in_class class) (drop at bytes.now) }
    ensures within { result ≤ length bytes.now }
    ensures later { at ≤ result }
{
    let mut i = at;
    while i < bytes.len() && is_in(class, bytes[i]) {
        i += 1;
    }
    i
}
