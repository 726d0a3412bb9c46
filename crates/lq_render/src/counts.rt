//! Counts with a comma between each three digits.
ghost use Rattle.std.specs.Prelude.{◌≡◌, ◌++◌, OnOk, encode_utf8, string_bytes};
ghost use Rattle.lq_render.specs.Cells.{count_text, grouped_digits, separator};

use crate::cells::characters;
use std::alloc::{AllocError, Global};

/// Puts a digit at the end, and a comma where this many digits follow.
fn push_digit(out: &mut String, digit: char, left: usize) -> Result<(), AllocError>
    ensures { OnOk result (string_bytes out.new
        ≡ string_bytes out.old ++ (encode_utf8 digit ++ separator left)) }
{
    out.push(digit)?;
    if left > 0 && left % 3 == 0 {
        out.push_str(",")?;
    }
    Ok(())
}

/// Puts digits at the end, with a comma between each three of them.
fn push_grouped(out: &mut String, digits: &[char]) -> Result<(), AllocError>
    ensures { OnOk result (string_bytes out.new
        ≡ string_bytes out.old ++ grouped_digits digits.now) }
{
    let mut left = digits;
    while let [digit, others @ ..] = left {
        push_digit(out, *digit, others.len())?;
        left = others;
    }
    Ok(())
}

/// Puts a number at the end, with a comma between each three digits.
pub(crate) fn push_count(alloc: Global, out: &mut String, count: u64) -> Result<(), AllocError>
    ensures { OnOk result (string_bytes out.new ≡ string_bytes out.old ++ count_text count) }
{
    let digits = format!(in alloc; "{count}")?;
    let digits = characters(alloc, digits.as_str())?;
    push_grouped(out, digits.as_slice())
}
