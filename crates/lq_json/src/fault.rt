//! Faults: their names, and those inside of values.
ghost use Rattle.std.specs.Prelude.{◌≡◌, map};
ghost use Rattle.lq_machine.specs.Served.{fault_at, fault_name, first_member, first_of, nested_fault};

use lq_value::{End, Fault, RowRef, Txt, Value};

/// The name of a fault.
pub(crate) fn fault_name(fault: Fault) -> &'static str
    ensures { result.now ≡ fault_name fault }
{
    match fault {
        Fault::DivideByZero => "DivideByZero",
        Fault::Overflow => "Overflow",
        Fault::NullReference => "NullReference",
        Fault::InvalidOperation => "InvalidOperation",
        Fault::ArgumentOutOfRange => "ArgumentOutOfRange",
    }
}

/// The fault of an ending.
fn fault_at(end: End) -> Option<Fault>
    ensures { result ≡ fault_at end }
{
    match end {
        End::Done => None,
        End::Fault(fault) => Some(fault),
    }
}

/// The fault that ends a sequence inside of the value, of several the first: depth first, members
/// as written. Takes no memory.
#[cycle(nested)]
#[tactic(auto, using(crate::proofs::Opens::nested))]
pub(crate) fn nested_fault<R: RowRef>(value: &Value<R>) -> Option<Fault>
    ensures { result ≡ nested_fault value.now }
{
    match value {
        Value::Scalar(_) => None,
        Value::Row(_) => None,
        Value::Rec(members) => fault_in_members(members.as_slice()),
        Value::Group(key, items) => match nested_fault(key.get()) {
            Some(fault) => Some(fault),
            None => fault_in_items(items.as_slice()),
        },
        Value::Seq(items, end) => match fault_in_items(items.as_slice()) {
            Some(fault) => Some(fault),
            None => fault_at(*end),
        },
    }
}

/// The first fault inside of these items.
#[cycle(nested)]
#[tactic(auto, using(crate::proofs::Opens::nested))]
fn fault_in_items<R: RowRef>(items: &[Value<R>]) -> Option<Fault>
    ensures { result ≡ first_of (map nested_fault items.now) }
{
    for item in items {
        if let Some(fault) = nested_fault(item) {
            return Some(fault);
        }
    }
    None
}

/// The first fault inside of these members.
#[cycle(nested)]
#[tactic(auto, using(crate::proofs::Opens::nested))]
fn fault_in_members<R: RowRef>(members: &[(Txt, Value<R>)]) -> Option<Fault>
    ensures { result ≡ first_member (map (λ m. (m.0, nested_fault m.1)) members.now) }
{
    for (_, value) in members {
        if let Some(fault) = nested_fault(value) {
            return Some(fault);
        }
    }
    None
}
