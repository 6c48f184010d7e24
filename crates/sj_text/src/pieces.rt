//! Bytes and numbers are put after a text, whole or not at all.

ghost use Rattle.std.specs.Prelude.{◌≡◌, ◌++◌, OnOk, OnErr, decimal};
ghost use Rattle.std.specs.Fmt.{signed_decimal};

use itoa::Buffer;
use sj_base::NoMemory;

/// Appends the bytes. Out of memory, it leaves the text as it was.
pub fn put(text: &mut Vec<u8>, bytes: &[u8]) -> Result<(), NoMemory>
    ensures ok { OnOk result (text.new.items ≡ text.old.items ++ bytes.now) }
    ensures err { OnErr result (text.new.items ≡ text.old.items) }
{
    Ok(text.extend_from_slice(bytes)?)
}

/// Appends the decimal digits of a number. Out of memory, it leaves the text as it was.
pub fn put_number(text: &mut Vec<u8>, n: u64) -> Result<(), NoMemory>
    ensures ok { OnOk result (text.new.items ≡ text.old.items ++ decimal n) }
    ensures err { OnErr result (text.new.items ≡ text.old.items) }
{
    put(text, Buffer::new().format(n).as_bytes())
}

/// Appends the decimal digits of a number, after `-` where it is negative. Out of memory, it leaves
/// the text as it was.
pub fn put_int(text: &mut Vec<u8>, z: i64) -> Result<(), NoMemory>
    ensures ok { OnOk result (text.new.items ≡ text.old.items ++ signed_decimal z) }
    ensures err { OnErr result (text.new.items ≡ text.old.items) }
{
    put(text, Buffer::new().format(z).as_bytes())
}
