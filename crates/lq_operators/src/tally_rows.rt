//! Rows of numbers, put to tallies one after another.
ghost use Rattle.std.specs.Prelude.{◌≡◌, ◌∷◌, [], if◌then◌else◌, map, IfOk};
ghost use Rattle.lq_value.specs.SameAndOrder.{same_values};
ghost use Rattle.lq_operators.specs.GroupTallies.{more, numbers_in, row_more, tallies_of, with_row_at};

use crate::numbers::Tally;
use lq_value::{Fault, List, RowRef, Scalar, Value, same};
use std::alloc::{AllocError, Global};

/// The numbers of a row of cells, one for each tally.
#[derive(Clone, Copy)]
pub(crate) struct RowNumbers<'r> {
    pub(crate) cells: &'r [Scalar],
    // The place of each number's cell; none where a tally has no number of the row.
    pub(crate) places: &'r [Option<usize>],
}

impl RowNumbers<'_> {
    ghost use Rattle.std.specs.Prelude.{◌≡◌, slice_get};
    ghost use Rattle.lq_operators.specs.GroupTallies.{number_at, numbers_in};

    // The number for the tally at this place, or none where its cell is no int; none at all past the last tally.
    #[inline(always)]
    fn get(self, place: usize) -> Option<Option<i32>>
        ensures { result ≡ slice_get (numbers_in self.entry) place }
    {
        match self.places.get(place) {
            Some(cell) => Some(self.number(*cell)),
            None => None,
        }
    }

    // The number in the cell at a place.
    #[inline(always)]
    fn number(self, place: Option<usize>) -> Option<i32>
        ensures { result ≡ number_at self.entry.cells.now place }
    {
        match self.cells.get(place?) {
            Some(Scalar::Int(number)) => Some(*number),
            _ => None,
        }
    }
}

// Puts a row to the tallies of the group at a place.
#[inline]
pub(crate) fn add_row_at<K>(
    groups: &mut Vec<(K, List<Result<Tally, Fault>>)>,
    place: usize,
    numbers: RowNumbers<'_>,
)
    ensures row { groups.new.items ≡ with_row_at groups.old.items place (numbers_in numbers.entry) }
    ensures keys { map (λ group. group.0) groups.new.items
        ≡ map (λ group. group.0) groups.old.items }
{
    if let Some(group) = groups.get_mut(place) {
        add_row(&mut group.1, numbers);
    }
}

// The group of a key with its first row, or with none where the key isn't the same as itself.
pub(crate) fn new_group<R: RowRef>(
    alloc: Global,
    begins: &[Tally],
    key: Value<R>,
    numbers: RowNumbers<'_>,
) -> Result<(Value<R>, List<Result<Tally, Fault>>), AllocError>
    ensures { let rows = if same_values key key then numbers_in numbers.entry ∷ [] else [] in
        IfOk result (λ group. group ≡ (key, tallies_of begins.now rows)) }
{
    let mut tallies = tallies_of_no_rows(alloc, begins)?;
    if same(&key, &key) {
        add_row(&mut tallies, numbers);
    }
    Ok((key, tallies))
}

// Tallies as they begin.
fn tallies_of_no_rows(
    alloc: Global,
    begins: &[Tally],
) -> Result<List<Result<Tally, Fault>>, AllocError>
    ensures { IfOk result (λ tallies. tallies ≡ tallies_of begins.now []) }
{
    let mut tallies = List::from_vec(Vec::with_capacity(alloc, begins.len())?);
    for tally in begins {
        tallies.push(Ok(*tally))?;
    }
    Ok(tallies)
}

// Puts a row to tallies.
#[inline]
fn add_row(tallies: &mut List<Result<Tally, Fault>>, numbers: RowNumbers<'_>)
    ensures { tallies.new ≡ row_more tallies.old (numbers_in numbers.entry) }
{
    add_numbers(tallies.items.as_mut_slice(), numbers);
}

// Puts each number to the tally at its place.
#[inline(always)]
fn add_numbers(tallies: &mut [Result<Tally, Fault>], numbers: RowNumbers<'_>)
    ensures { tallies.new ≡ row_more tallies.old (numbers_in numbers.entry) }
{
    for (place, tally) in tallies.iter_mut().enumerate() {
        if let Some(number) = numbers.get(place) {
            add_number(tally, number);
        }
    }
}

// One item more, which is this number, or none at all; past a fault a tally stays.
#[inline(always)]
fn add_number(tally: &mut Result<Tally, Fault>, number: Option<i32>)
    ensures { tally.new ≡ more tally.old number }
{
    if let Ok(so_far) = tally {
        if let Err(fault) = so_far.add(number) {
            *tally = Err(fault);
        }
    }
}
