//! Parts of values: those of pairs, members of records, keys of groups.
ghost use Rattle.std.specs.Prelude.{◌≡◌, ◌∷◌, ◌++◌, [], if◌then◌else◌, not, false, true, Ok, IfOk, OnOk, option_map, slice_get};
ghost use Rattle.std.specs.Option.{option_copied};
ghost use Rattle.lq_value.specs.declared.value.Value.{out-Value};
ghost use Rattle.lq_language.specs.Enumerable.{at_end};
ghost use Rattle.lq_language.specs.Worlds.{World};
ghost use Rattle.lq_language.specs.OperandMeaning.{truth_value};
ghost use Rattle.lq_language.specs.Operators.{first, pair, second};
ghost use Rattle.lq_language.specs.Meaning.{as_truth};
ghost use Rattle.lq_operators.specs.Answers.{IsAnswer};
ghost use Rattle.lq_tree.specs.FormMeaning.{is_null_value};

use lq_host::{Pick, PredicateNumber};
use lq_operators::RunError;
use lq_value::{ColumnNumber, End, List, RowRef, Scalar, TableNumber, Txt, Value};
use std::alloc::{AllocError, Global};

/// What is read of a value, or asked about it.
#[derive(Clone, Copy)]
pub enum Part {
    /// The first part of a pair.
    First,
    /// The second part of a pair.
    Second,
    /// The cell of a row under the name of this column of this table.
    Cell(TableNumber, ColumnNumber),
    /// What the host predicate of this number answers about a row: it is asked of the cells in these
    /// columns of this table.
    Host(PredicateNumber, TableNumber, Pick),
    /// The member of a record at this place.
    Member(usize),
    /// The key of a group (.NET, `IGrouping.Key`).
    Key,
    /// Whether it is null (`== null`), or with false whether it isn't (`!= null`).
    IsNull(bool),
}

/// The first part of a pair: what stands in a record's first member; of any other value, itself.
#[tactic(auto, using(crate::proofs::PartLemmas::layers))]
pub(crate) fn first<R: RowRef>(value: &Value<R>) -> &Value<R>
    ensures { result.now ≡ first value.now }
{
    match value {
        Value::Rec(members) => match members.as_slice() {
            [(_, part), ..] => part,
            [] => value,
        },
        Value::Scalar(_) | Value::Row(_) | Value::Group(_, _) | Value::Seq(_, _) => value,
    }
}

/// The second part of a pair: what stands in a record's second member; of any other value, itself.
#[tactic(auto, using(crate::proofs::PartLemmas::layers))]
pub(crate) fn second<R: RowRef>(value: &Value<R>) -> &Value<R>
    ensures { result.now ≡ second value.now }
{
    match value {
        Value::Rec(members) => match members.as_slice() {
            [_, (_, part), ..] => part,
            [_] | [] => value,
        },
        Value::Scalar(_) | Value::Row(_) | Value::Group(_, _) | Value::Seq(_, _) => value,
    }
}

/// A pair: a record of two members without names, which stands for the values of two range variables
/// (ECMA-334, transparent identifiers). Refused where no memory was left.
pub fn pair<R: RowRef>(
    alloc: Global,
    left: Value<R>,
    right: Value<R>,
) -> Result<Value<R>, AllocError>
    ensures { IfOk result (λ v. v ≡ pair left right) }
{
    let mut members = List::new(alloc);
    members.push((Txt::from_str(alloc, "")?, left))?;
    members.push((Txt::from_str(alloc, "")?, right))?;
    Ok(Value::Rec(members))
}

/// Whether a value is null. No row, record, group or sequence is.
#[tactic(auto, using(crate::proofs::PartLemmas::layers))]
fn is_null<R: RowRef>(value: &Value<R>) -> bool
    ensures { (world : World R) → result ≡ is_null_value world (out-Value R value.now) }
{
    match value {
        Value::Scalar(Scalar::Null) => true,
        Value::Scalar(Scalar::Int(_) | Scalar::Bool(_) | Scalar::Text(_)) => false,
        Value::Row(_) | Value::Rec(_) | Value::Group(_, _) | Value::Seq(_, _) => false,
    }
}

/// The value of the member at a place, if there is one.
pub(crate) fn member<R: RowRef>(members: &[(Txt, Value<R>)], place: usize) -> Option<&Value<R>>
    ensures { option_copied result ≡ option_map (λ member. member.1)
        (slice_get members.now place) }
{
    let (_, value) = members.get(place)?;
    Some(value)
}

/// Whether a value is null, where that is wanted (`==`), and else whether it isn't (`!=`).
pub(crate) fn is_null_as<R: RowRef>(value: &Value<R>, wanted: bool) -> bool
    ensures { (world : World R) → result ≡ (if wanted then is_null_value world
        (out-Value R value.now) else not (is_null_value world (out-Value R value.now))) }
{
    let null = is_null(value);
    if wanted { null } else { !null }
}

/// Puts a member behind the others, under a copy of its name. Refused where no memory was left.
pub fn push_member<R: RowRef>(
    alloc: Global,
    members: &mut List<(Txt, Value<R>)>,
    name: &Txt,
    value: Value<R>,
) -> Result<(), AllocError>
    ensures { OnOk result (members.new ≡ members.old ++ (name.now, value) ∷ []) }
{
    members.push((Txt::from_str(alloc, name.as_str())?, value))
}

/// A truth value, as a value.
#[inline]
pub fn truth<R: RowRef>(truth: bool) -> Value<R>
    ensures { result ≡ truth_value truth }
{
    Value::Scalar(Scalar::Bool(truth))
}

/// What a method answers that has found nothing at the end of the items: false where they are done,
/// or the fault that ends them (.NET, `Enumerable.Contains`).
pub fn false_at_end<R: RowRef>(end: End) -> Result<Value<R>, RunError>
    ensures { IsAnswer (as_truth (at_end end (Ok false))) result }
{
    match end {
        End::Done => Ok(truth(false)),
        End::Fault(met) => Err(RunError::Fault(met)),
    }
}

/// What a method answers that has found nothing against it at the end of the items: true where they
/// are done, or the fault that ends them (.NET, `Enumerable.All`).
pub fn true_at_end<R: RowRef>(end: End) -> Result<Value<R>, RunError>
    ensures { IsAnswer (as_truth (at_end end (Ok true))) result }
{
    match end {
        End::Done => Ok(truth(true)),
        End::Fault(fault) => Err(RunError::Fault(fault)),
    }
}
