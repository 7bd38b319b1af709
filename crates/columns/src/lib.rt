// Numbers in columns: decimal, right-justified with blanks. Bytes and no `String`, as a page is written.
#![tactic(auto)]

ghost use Rattle.std.specs.Prelude.{◌≡◌, ◌≤◌, true, ◌++◌, length, take, is_ok, if◌then◌else◌, vec_len, decimal};
ghost use Rattle.columns.specs.Columns.{right, row};

use itoa::write_digits;
use std::alloc::AllocError;

// How many digits a number has.
fn digit_count(n: u64) -> usize
    ensures count { result ≡ length (decimal n) }
    ensures bound { result ≤ 20 }
{
    match n.checked_ilog10() {
        None => 1,
        Some(power) => power as usize + 1,
    }
}

// Writes a number right-justified in `width` columns. Where memory fails nothing is written.
pub fn push_right(out: &mut Vec<u8>, n: u64, width: usize) -> Result<(), AllocError>
    ensures { out.new.items ≡ (if is_ok result then out.old.items ++ right width n else out.old.items) }
{
    let more = width.max(digit_count(n));
    out.reserve(more)?;
    let end = out.len() + more;
    out.resize(end, b' ')?;
    write_digits(n, out.as_mut_slice(), end);
    Ok(())
}

// Writes numbers in columns and ends the line. Where memory fails, what stood before still stands first.
fn push_cells(out: &mut Vec<u8>, numbers: &[u64], width: usize) -> Result<(), AllocError>
    ensures all { is_ok result ≡ true → out.new.items ≡ out.old.items ++ row width numbers.now }
    ensures first { take (vec_len out.old) out.new.items ≡ out.old.items }
{
    for n in numbers {
        push_right(out, *n, width)?;
    }
    out.push(b'\n')?;
    Ok(())
}

// Writes a line of numbers in columns. Where memory fails nothing is written.
pub fn push_row(out: &mut Vec<u8>, numbers: &[u64], width: usize) -> Result<(), AllocError>
    ensures { out.new.items ≡ (if is_ok result then out.old.items ++ row width numbers.now else out.old.items) }
{
    let start = out.len();
    let done = push_cells(out, numbers, width);
    if done.is_err() {
        out.truncate(start);
    }
    done
}
