//! Scalars, written as JSON.
ghost use Rattle.std.specs.Prelude.{◌≡◌, ◌-◌, ◌++◌, ◌≤◌, drop, take, OnOk};
ghost use Rattle.std.specs.Fmt.{signed_decimal};
ghost use Rattle.serde_json.specs.Data.{boolean, number};
ghost use Rattle.serde_json.specs.Find.{of_integer};
ghost use Rattle.serde_json.specs.Written.{compact_text};
ghost use Rattle.lq_machine.specs.Served.{scalar_data};

use crate::string::write_string;
use crate::text::Text;
use itoa::write_digits;
use lq_value::Scalar;
use std::alloc::AllocError;

/// Where the digits of an int end in a block of bytes.
const DIGITS_END: usize = 16;

/// Puts an int's text into a block, and returns where it starts there.
#[inline(always)]
fn place_int(int: i32, block: &mut [u8; 32]) -> usize
    ensures within { result ≤ 16 }
    ensures written { take (16 - result) (drop result block.new) ≡ signed_decimal int }
{
    let start = write_digits(int.unsigned_abs() as u64, block, DIGITS_END);
    if int >= 0 {
        return start;
    }
    block[start - 1] = b'-';
    start - 1
}

/// An int.
#[inline(always)]
#[tactic(auto, using(crate::proofs::Written::integer_text))]
pub(crate) fn write_int(int: i32, out: &mut Text) -> Result<(), AllocError>
    ensures { OnOk result (out.new ≡ out.old ++ compact_text (number (of_integer int))) }
{
    let mut block = [0; 32];
    let start = place_int(int, &mut block);
    out.put_block::<DIGITS_END>(&block[start..], DIGITS_END - start)
}

/// A truth value.
pub(crate) fn write_bool(truth: bool, out: &mut Text) -> Result<(), AllocError>
    ensures { OnOk result (out.new ≡ out.old ++ compact_text (boolean truth)) }
{
    if truth {
        out.put(b"true")
    } else {
        out.put(b"false")
    }
}

/// A scalar.
#[inline(always)]
pub(crate) fn write_scalar(scalar: &Scalar, out: &mut Text) -> Result<(), AllocError>
    ensures { OnOk result (out.new
        ≡ out.old ++ compact_text (scalar_data scalar.now)) }
{
    match scalar {
        Scalar::Null => out.put(b"null"),
        Scalar::Int(number) => write_int(*number, out),
        Scalar::Bool(truth) => write_bool(*truth, out),
        Scalar::Text(text) => write_string(text.as_str(), out),
    }
}
