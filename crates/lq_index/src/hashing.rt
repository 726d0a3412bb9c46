//! Hashes of scalars.
ghost use Rattle.std.specs.Prelude.{◌≡◌, ◌≤◌};
ghost use Rattle.lq_index.specs.Hashes.{mix, mix_bytes, mix_scalar, hash_of, home};

use lq_value::Scalar;

#[inline(always)]
#[tactic(auto, unfolding(crate::specs::Hashes::mix))]
fn mix(state: u64, number: u64) -> u64
    ensures { result ≡ mix state number }
{
    state
        .wrapping_add(number)
        .wrapping_mul(0x9e37_79b9_7f4a_7c15)
}

fn mix_bytes(state: u64, text: &[u8]) -> u64
    ensures { result ≡ mix_bytes state text.now }
{
    let mut state = state;
    for byte in text {
        state = mix(state, *byte as u64);
    }
    state
}

#[inline(always)]
fn mix_scalar(scalar: &Scalar) -> u64
    ensures { result ≡ mix_scalar scalar.now }
{
    match scalar {
        Scalar::Null => mix(7, 0),
        Scalar::Int(number) => mix(3, number.unsigned_abs() as u64),
        Scalar::Bool(true) => mix(5, 1),
        Scalar::Bool(false) => mix(5, 0),
        Scalar::Text(text) => mix(mix_bytes(11, text.as_bytes()), 13),
    }
}

// The hash of a scalar. Scalars that are the same have one hash.
#[inline(always)]
#[tactic(auto, unfolding(crate::specs::Hashes::hash_of))]
pub(crate) fn hash_of(scalar: &Scalar) -> u32
    ensures { result ≡ hash_of scalar.now }
{
    (mix_scalar(scalar) / 4_294_967_296) as u32
}

// The slot, of `width` slots, at which a search for a hash begins.
#[inline(always)]
#[tactic(auto, unfolding(crate::specs::Hashes::home))]
pub(crate) fn home(width: u32, hash: u32) -> usize
    ensures value { result ≡ home width hash }
    ensures below { result ≤ width }
{
    let place = hash as u64 * width as u64 / 4_294_967_296;
    if place < width as u64 {
        place as usize
    } else {
        0
    }
}
