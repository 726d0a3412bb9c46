//! Random values, and their keys.
ghost use Rattle.std.specs.Prelude.{[]};

use lq_value::{Key, List, RowRef, Scalar, Txt, Value, key_of};
use std::alloc::{AllocError, Global};

/// A row with no cells.
#[derive(Clone, Copy)]
pub(crate) struct NoRow;

impl RowRef for NoRow {
    ghost shown = { λ row. [] };

    fn cells(&self) -> &[Scalar] {
        &[]
    }

    fn again(&self) -> Self {
        NoRow
    }
}

/// A generator of numbers, by a multiplication and a sum.
#[derive(Drop)]
pub(crate) struct Random {
    pub(crate) state: u64,
}

impl Random {
    /// A number below `bound`.
    pub(crate) fn below(&mut self, bound: u64) -> u64 {
        self.state = self
            .state
            .wrapping_mul(6364136223846793005)
            .wrapping_add(1442695040888963407);
        if bound == 0 {
            0
        } else {
            (self.state >> 33) % bound
        }
    }

    /// Any int, the least and the greatest among them more often than others.
    pub(crate) fn any_int(&mut self) -> i32 {
        match self.below(8) {
            0 => i32::MIN,
            1 => i32::MAX,
            _ => ((self.below(1 << 31) % (1 << 31)) as i32).wrapping_mul(3),
        }
    }

    /// One of five ints round zero.
    pub(crate) fn few_ints(&mut self) -> i32 {
        ((self.below(5) % 5) as i32).wrapping_sub(2)
    }
}

/// A random scalar.
pub(crate) fn scalar(alloc: Global, random: &mut Random) -> Result<Scalar, AllocError> {
    match random.below(6) {
        0 => Ok(Scalar::Null),
        1 => Ok(Scalar::Bool(random.below(2) == 1)),
        2 => Ok(Scalar::Int(1)),
        3 => Ok(Scalar::Int(-1)),
        4 => Ok(Scalar::Text(Txt::from_str(alloc, "a")?)),
        _ => Ok(Scalar::Text(Txt::from_str(alloc, "")?)),
    }
}

// A record of the members `a` and `b`.
fn record(alloc: Global, a: Value<NoRow>, b: Value<NoRow>) -> Result<Value<NoRow>, AllocError> {
    let mut members = List::new(alloc);
    members.push((Txt::from_str(alloc, "a")?, a))?;
    members.push((Txt::from_str(alloc, "b")?, b))?;
    Ok(Value::Rec(members))
}

fn scalar_value(alloc: Global, random: &mut Random) -> Result<Value<NoRow>, AllocError> {
    Ok(Value::Scalar(scalar(alloc, random)?))
}

// A scalar, or a record of two scalars.
fn member(alloc: Global, random: &mut Random) -> Result<Value<NoRow>, AllocError> {
    let first = scalar_value(alloc, random)?;
    if random.below(3) > 0 {
        return Ok(first);
    }
    record(alloc, first, scalar_value(alloc, random)?)
}

/// A random value: a scalar, or a record of two members, each a scalar that may be null or a record of two of these.
pub(crate) fn value(alloc: Global, random: &mut Random) -> Result<Value<NoRow>, AllocError> {
    if random.below(3) > 0 {
        return scalar_value(alloc, random);
    }
    let first = member(alloc, random)?;
    record(alloc, first, member(alloc, random)?)
}

/// The keys of values, in their order.
pub(crate) fn keys_of(alloc: Global, values: &[Value<NoRow>]) -> Result<Vec<Key>, AllocError> {
    let mut keys = Vec::new(alloc);
    for value in values {
        keys.push(key_of(alloc, value)?)?;
    }
    Ok(keys)
}
