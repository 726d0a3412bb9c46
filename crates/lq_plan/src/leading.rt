//! The first items of an order, by keys that are cells of rows.
ghost use Rattle.std.specs.Prelude.{◌≡◌, ◌∷◌, ◌<◌, [], IfOk, List, length, true};
ghost use Rattle.lq_value.specs.declared.value.Value.{Value};
ghost use Rattle.lq_language.specs.Worlds.{World};
ghost use Rattle.lq_plan.specs.Leading.{AddsByKeys, HasKeys, LambdasGiveCells, bodies_of};
ghost use Rattle.lq_plan.specs.Prepared.{GivesCell};

use crate::lambdas::Lambda;
use crate::rows::Reads;
use crate::slots::Slots;
use crate::sources::Sources;
use crate::tables::TableRow;
use lq_grammar::SortKey;
use lq_host::Asks;
use lq_operators::Leading;
use lq_tree::Form;
use lq_value::{List, Scalar, Value, copy_scalar};
use std::alloc::{AllocError, Global};
use std::slice::from_ref;

impl<'a, R: TableRow, S: Reads<R>, H: Asks> Sources<'a, R, S, H> {
    ghost use Rattle.std.specs.Prelude.{◌≡◌, IfOk};
    ghost use Rattle.lq_plan.specs.Leading.{GiveCells, bodies_of, forms_of};

    /// A lambda for each key, whose item stands in the slot after these. Refused where no memory was left.
    pub fn key_lambdas<'f>(
        &self,
        keys: &'f [SortKey<Form>],
        slots: &Slots<'_, R>,
    ) -> Result<Vec<Lambda<'f>>, AllocError>
        ensures bodies { IfOk result (λ lambdas. bodies_of lambdas.items ≡ forms_of keys.now) }
        ensures cells { IfOk result (λ lambdas. GiveCells self.now slots.now lambdas.items) }
    {
        let mut lambdas = Vec::new(self.alloc);
        for key in keys {
            lambdas.push(self.lambda(&key.value, slots))?;
        }
        Ok(lambdas)
    }
}

/// Whether lambdas may give a cell of each row that an order is made of. Any answer is right: each item is
/// asked for its cells.
pub fn may_give_cells(lambdas: &[Lambda<'_>]) -> bool {
    for lambda in lambdas {
        if lambda.place.is_none() {
            return false;
        }
    }
    true
}

/// Whether so many items are few enough to be kept in their order as others are added: each that is added
/// moves those behind its place.
pub fn are_few(wanted: usize) -> bool
    ensures { result ≡ true → 0 < wanted }
{
    0 < wanted && wanted <= 64
}

/// Puts copies of the cells that lambdas give of an item in place of other keys; or it is false, where one
/// of them isn't known to give a cell of it. Refused where no memory was left.
#[inline]
fn read_keys<R: TableRow>(
    alloc: Global,
    lambdas: &[Lambda<'_>],
    item: &Value<R>,
    keys: &mut Vec<Scalar>,
) -> Result<bool, AllocError>
    ensures counted { IfOk result (λ given. given ≡ true → length keys.new.items
        ≡ length lambdas.now) }
    ensures keys { IfOk result (λ given. given ≡ true → (world : World R) (slots : List (Value R))
        → LambdasGiveCells R.table_of R.shown world slots lambdas.now
        → HasKeys world slots (bodies_of lambdas.now) item.now keys.new.items) }
{
    keys.clear();
    for lambda in lambdas {
        match lambda.cell(item) {
            Some(cell) => keys.push(copy_scalar(alloc, cell)?)?,
            None => return Ok(false),
        }
    }
    Ok(true)
}

/// Adds an item by its only key, where it stands.
#[inline(always)]
fn add_by_cell<R: TableRow>(
    alloc: Global,
    lambda: &Lambda<'_>,
    item: Value<R>,
    leading: &mut Leading<Value<R>>,
) -> Result<bool, AllocError>
    requires { length leading.old.directions ≡ 1 }
    ensures added { IfOk result (λ given. given ≡ true → (world : World R) (slots : List (Value R))
        → GivesCell R.table_of R.shown world slots lambda.now
        → AddsByKeys world slots (lambda.now.body.now ∷ []) leading.old item leading.new) }
    ensures directions { IfOk result (λ given. leading.new.directions ≡ leading.old.directions) }
{
    let Some(cell) = lambda.cell(&item) else {
        return Ok(false);
    };
    if !leading.is_wanted(from_ref(cell)) {
        return Ok(true);
    }
    let mut keys = List::new(alloc);
    keys.push(copy_scalar(alloc, cell)?)?;
    leading.add(keys, item)?;
    Ok(true)
}

/// Adds an item by its keys to the first ones of an order, where it is one of them; or it is false, where a
/// lambda isn't known to give a cell of it. The keys are read into a vector, in place of those of the item before.
/// Refused where no memory was left.
#[inline(always)]
pub fn add_by_cells<R: TableRow>(
    alloc: Global,
    lambdas: &[Lambda<'_>],
    item: Value<R>,
    keys: &mut Vec<Scalar>,
    leading: &mut Leading<Value<R>>,
) -> Result<bool, AllocError>
    requires { length lambdas.now ≡ length leading.old.directions }
    ensures added { IfOk result (λ given. given ≡ true → (world : World R) (slots : List (Value R))
        → LambdasGiveCells R.table_of R.shown world slots lambdas.now
        → AddsByKeys world slots (bodies_of lambdas.now) leading.old item leading.new) }
    ensures directions { IfOk result (λ given. leading.new.directions ≡ leading.old.directions) }
{
    if let [lambda] = lambdas {
        return add_by_cell(alloc, lambda, item, leading);
    }
    if !read_keys(alloc, lambdas, &item, keys)? {
        return Ok(false);
    }
    if leading.is_wanted(keys.as_slice()) {
        leading.add_by_keys(alloc, keys.as_slice(), item)?;
    }
    Ok(true)
}
