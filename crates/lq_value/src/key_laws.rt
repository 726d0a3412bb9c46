//! Laws of sameness and of the order of scalars. Each function's contract is the law that it is
//! named for; the functions themselves do nothing.
ghost use Rattle.lq_value.specs.Keys.{KeysTell, TellsEqualKeys};
ghost use Rattle.lq_value.specs.SameAndOrder.{TellsKeys, OrdersScalars, TellsScalars};

use crate::value::RowRef;

/// Two values are the same exactly where they are equal and a key: a scalar, or a record of keys.
pub fn same_keys<R: RowRef>()
    ensures { TellsKeys R }
{}

/// The order of scalars is total: turning two scalars turns the answer, what is less stays so along
/// a chain, and what is level compares alike with any other. Two scalars are level exactly where they
/// are equal.
pub fn total_order()
    ensures total { OrdersScalars }
    ensures exact { TellsScalars }
{}

/// Two values of one key type (int, int?, bool, string, or a record of key types; null counts as a
/// value of each record type, too) have equal keys exactly where they are the same.
pub fn keys_tell<R: RowRef>()
    ensures { KeysTell R }
{}

/// Two keys compare as equal exactly where they are one.
pub fn equal_keys()
    ensures { TellsEqualKeys }
{}
