//! Flat tables by the numbers of names.
ghost use Rattle.std.specs.Prelude.{◌≡◌, ℕ, ◌≤◌, length, slice_index_or, OnOk};

use sj_base::NoMemory;

/// What stands at that number, and the blank where the table is shorter.
pub(crate) fn at_or<T: Copy + Drop>(table: &[T], n: usize, blank: T) -> T
    ensures { result ≡ slice_index_or table.now n blank }
{
    if n < table.len() { table[n] } else { blank }
}

/// Makes room for numbers below `len`, which are blank so far.
pub(crate) fn grow<T: Copy + Drop>(table: &mut Vec<T>, len: usize, blank: T) -> Result<(), NoMemory>
    ensures room { OnOk result (len ≤ length table.new.items) }
    ensures kept { (q : ℕ) → slice_index_or table.new.items q blank ≡ slice_index_or table.old.items q blank }
{
    while table.len() < len {
        table.push(blank)?;
    }
    Ok(())
}
