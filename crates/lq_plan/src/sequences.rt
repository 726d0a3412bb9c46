//! Sequences: the streams that values are enumerated as.
ghost use Rattle.std.specs.Prelude.{◌≡◌, ◌++◌, [], IfOk, Result};
ghost use Rattle.lq_value.specs.declared.value.End.TheVariants as end;
ghost use Rattle.lq_value.specs.declared.value.Fault.{Fault};
ghost use Rattle.lq_value.specs.declared.value.Fault.TheVariants as fault;
ghost use Rattle.lq_value.specs.declared.value.Value.{Value, out-Value};
ghost use Rattle.lq_language.specs.Worlds.{World};
ghost use Rattle.lq_language.specs.OperandMeaning.{items_of, sequence, stream_of};
ghost use Rattle.lq_language.specs.Stream.{whole};
ghost use Rattle.lq_operators.specs.Matching.{pairs_of};
ghost use Rattle.lq_tree.specs.FormMeaning.{matched};
ghost use Rattle.lq_plan.specs.Groups.{groups_in};
ghost use Rattle.lq_operators.specs.Answers.{IsAnswer};

use lq_operators::{Matches, RunError, group_pairs};
use lq_value::{End, Fault, List, RowRef, Value};
use std::alloc::{AllocError, Global};

/// The items that a value is enumerated as, and their ending. What is no sequence and no group has
/// none, and no typed tree has it where a sequence is asked for.
#[tactic(auto, using(crate::proofs::PartLemmas::layers))]
fn items<R: RowRef>(alloc: Global, value: Value<R>) -> (List<Value<R>>, End)
    ensures { (world : World R) → world.unknown ≡ fault.NullReference → result
        ≡ items_of world (out-Value R value) }
{
    match value {
        Value::Seq(items, end) => (items, end),
        Value::Group(_, items) => (items, End::Done),
        Value::Scalar(_) | Value::Row(_) | Value::Rec(_) => {
            (List::new(alloc), End::Fault(Fault::NullReference))
        }
    }
}

/// The items that what was found is enumerated as, and how they end: those of a sequence or a group. A
/// fault that was met is the ending of no items. Refused exactly where memory was.
pub fn stream<R: RowRef>(
    alloc: Global,
    answer: Result<Value<R>, RunError>,
) -> Result<(List<Value<R>>, End), AllocError>
    ensures { (world : World R) (meant : Result (Value R) Fault) → world.unknown
        ≡ fault.NullReference → IsAnswer meant answer
        → IfOk result (λ s. s ≡ stream_of world meant) }
{
    match answer {
        Ok(value) => Ok(items(alloc, value)),
        Err(RunError::Fault(fault)) => Ok((List::new(alloc), End::Fault(fault))),
        Err(RunError::Memory) => Err(AllocError),
    }
}

/// The value or the fault that was found. Refused exactly where memory was.
pub fn value_or_fault<R: RowRef>(
    answer: Result<Value<R>, RunError>,
) -> Result<Result<Value<R>, Fault>, AllocError>
    ensures { (meant : Result (Value R) Fault) → IsAnswer meant answer
        → IfOk result (λ value. value ≡ meant) }
{
    match answer {
        Ok(value) => Ok(Ok(value)),
        Err(RunError::Fault(fault)) => Ok(Err(fault)),
        Err(RunError::Memory) => Err(AllocError),
    }
}

/// The sequence of an operator that reads its source whole, where the source ends in a fault: no item,
/// and that fault.
pub fn fault_sequence<R: RowRef>(alloc: Global, fault: Fault) -> Value<R>
    ensures { result ≡ sequence ([], end.Fault fault) }
{
    Value::Seq(List::new(alloc), End::Fault(fault))
}

/// The groups of elements by their keys, in the order of each key's first (.NET, `Enumerable.GroupBy`);
/// where their stream ended in a fault, nothing but that fault. Refused where no memory was left.
pub fn groups<R: RowRef>(
    alloc: Global,
    pairs: List<(Value<R>, Value<R>)>,
    end: End,
) -> Result<Value<R>, AllocError>
    ensures { IfOk result (λ v. v ≡ sequence (whole pairs end groups_in)) }
{
    match end {
        End::Done => Ok(Value::Seq(group_pairs(alloc, pairs)?, End::Done)),
        End::Fault(fault) => Ok(fault_sequence(alloc, fault)),
    }
}

/// The inner items that a key matches: one by one (.NET, `Enumerable.Join`), or all of them as one
/// sequence (`Enumerable.GroupJoin`). Refused where no memory was left.
pub fn match_items<R: RowRef>(
    alloc: Global,
    grouped: bool,
    key: &Value<R>,
    matches: &Matches<R>,
) -> Result<List<Value<R>>, AllocError>
    ensures { (world : World R) → IfOk result (λ items. items
        ≡ matched world grouped key.now (pairs_of matches.now)) }
{
    let items = matches.find(alloc, key)?;
    if !grouped {
        return Ok(items);
    }
    let mut one = List::new(alloc);
    one.push(Value::Seq(items, End::Done))?;
    Ok(one)
}

/// Items, and further ones behind them. Refused where no memory was left.
pub fn append<R: RowRef>(
    items: List<Value<R>>,
    further: List<Value<R>>,
) -> Result<List<Value<R>>, AllocError>
    ensures { IfOk result (λ all. all ≡ items ++ further) }
{
    let mut all = items.into_vec();
    let mut further = further.into_vec();
    all.append(&mut further)?;
    Ok(List::from_vec(all))
}
