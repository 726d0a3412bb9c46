//! Numbers in cells.
ghost use Rattle.std.specs.Prelude.{◌≡◌, ◌≤◌, ◌<◌, ◌^◌, pos, neg_ℤ, IfSome};
ghost use Rattle.lq_load.specs.Cells.{bounded, natural_of, int_of};

use lq_lex::LARGEST_INTEGER;

/// How far below zero an `int` reaches.
const MOST_BELOW: u64 = LARGEST_INTEGER as u64;

/// How far above zero an `int` reaches.
const MOST_ABOVE: u64 = LARGEST_INTEGER as u64 - 1;

/// The number that `text` spells: digits, with or without a minus before them, within `int`.
pub fn int_of(text: &[u8]) -> Option<i32>
    ensures { result ≡ int_of text.now }
{
    match text.split_first() {
        Some((b'-', digits)) => natural(digits, MOST_BELOW).map(below_zero),
        _ => natural(text, MOST_ABOVE).map(above_zero),
    }
}

// The number of this size below zero.
fn below_zero(size: u64) -> i32
    requires { size ≤ 2147483648 }
    ensures { result ≡ neg_ℤ (pos size) }
{
    -(size as i64) as i32
}

// The number of this size above zero.
fn above_zero(size: u64) -> i32
    requires { size ≤ 2147483647 }
    ensures { result ≡ pos size }
{
    size as i32
}

// The number that `digits` spell, if they are one or more digits and it is at most `limit`.
#[tactic(auto, using(crate::proofs::NumberLemmas::natural_is))]
fn natural(digits: &[u8], limit: u64) -> Option<u64>
    requires { limit < 2 ^ 32 }
    ensures value { result ≡ bounded limit (natural_of digits.now) }
    ensures within { IfSome result (λ size. size ≤ limit) }
{
    if digits.is_empty() {
        return None;
    }
    let mut value = 0;
    for digit in digits {
        if !digit.is_ascii_digit() {
            return None;
        }
        value = value * 10 + (*digit - b'0') as u64;
        if value > limit {
            return None;
        }
    }
    Some(value)
}
