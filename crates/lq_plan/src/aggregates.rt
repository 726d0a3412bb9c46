//! What is selected of groups, where it is their keys and tallies of their items: these are kept as rows come, and no lists of items.
ghost use Rattle.std.specs.Prelude.{◌≡◌, length, true};
ghost use Rattle.lq_tree.specs.declared.tree.Form.TheVariants as of_form;
ghost use Rattle.lq_plan.specs.Slots.{values_in};

use crate::lambdas::Lambda;
use crate::rows::Reads;
use crate::slots::Slots;
use crate::sources::Sources;
use crate::tables::TableRow;
use lq_grammar::Field;
use lq_host::Asks;
use lq_operators::{GroupTallies, Tally};
use lq_tree::Form;
use lq_value::{List, TableNumber, Txt, Ty};
use std::alloc::{AllocError, Global};

/// A tally of the items of a group.
#[derive(Clone, Copy, Drop)]
pub struct GroupTally<'f> {
    /// How it begins.
    pub begins: Tally,
    /// The type of what is tallied.
    pub of: &'f Ty,
    /// The lambda of which it is tallied what it gives of each item; none where the items are tallied.
    pub by: Option<Lambda<'f>>,
}

/// What is read of a group.
#[derive(Clone, Copy, Drop)]
pub enum GroupRead {
    /// Its key.
    Key,
    /// The number that the tally at this place comes to.
    Tally(usize),
}

/// A member of the record that is selected of a group.
#[derive(Clone, Copy, Drop)]
pub struct GroupMember<'f> {
    /// Its name.
    pub name: &'f Txt,
    /// What it is.
    pub read: GroupRead,
}

/// What the members of a record read of a group, and the tallies of its items among this.
#[derive(Drop)]
pub struct GroupReads<'f> {
    /// The members, in their order.
    pub members: Vec<GroupMember<'f>>,
    /// The tallies, which the members have by their places.
    pub tallies: Vec<GroupTally<'f>>,
}

impl GroupReads<'_> {
    ghost use Rattle.std.specs.Prelude.{◌≡◌, IfOk};
    ghost use Rattle.lq_plan.specs.Aggregates.{begins_in};

    /// How the tallies begin. Refused where no memory was left.
    pub fn begins(&self, alloc: Global) -> Result<List<Tally>, AllocError>
        ensures { IfOk result (λ begins. begins ≡ begins_in self.now.tallies.items) }
    {
        let mut begins = List::from_vec(Vec::with_capacity(alloc, self.tallies.len())?);
        for tally in self.tallies.iter() {
            begins.push(tally.begins)?;
        }
        Ok(begins)
    }
}

impl<'a, R: TableRow, S: Reads<R>, H: Asks> Sources<'a, R, S, H> {
    ghost use Rattle.std.specs.Prelude.{◌≡◌, ◌++◌, IfOk, IfSome, List, OnOk, length};
    ghost use Rattle.lq_plan.specs.Aggregates.{AreReadOf, GiveNumbers, IsReadOf, IsTallyOf, LambdaGivesCell, TallyGivesCell, items_by};
    ghost use Rattle.lq_plan.specs.Plans.{world};
    ghost use Rattle.lq_plan.specs.Slots.{values_in};
    ghost use Rattle.lq_plan.specs.declared.aggregates.GroupTally.{GroupTally};

    /// What the members of a record read of the group that stands in the slot after these; none where one of
    /// them is something else than its key or a tally of its items. Refused where no memory was left.
    pub fn group_reads<'f>(
        &self,
        fields: &'f [Field<Form>],
        slots: &Slots<'_, R>,
    ) -> Result<Option<GroupReads<'f>>, AllocError>
        ensures read { IfOk result (λ found. IfSome found (λ reads.
            AreReadOf (length (values_in slots.now)) reads.tallies.items fields.now
            reads.members.items)) }
        ensures cells { IfOk result (λ found. IfSome found (λ reads.
            GiveNumbers self.now slots.now reads.tallies.items)) }
    {
        let mut members = Vec::new(self.alloc);
        let mut tallies = Vec::new(self.alloc);
        for field in fields {
            match self.group_read(&field.value, slots, &mut tallies)? {
                Some(read) => members.push(GroupMember {
                    name: &field.name,
                    read,
                })?,
                None => return Ok(None),
            }
        }
        Ok(Some(GroupReads { members, tallies }))
    }

    /// What a form reads of the group that stands in the slot after these. Where that is a tally, it is put
    /// behind the others.
    fn group_read<'f>(
        &self,
        form: &'f Form,
        slots: &Slots<'_, R>,
        tallies: &mut Vec<GroupTally<'f>>,
    ) -> Result<Option<GroupRead>, AllocError>
        ensures read { IfOk result (λ found. IfSome found
            (IsReadOf (length (values_in slots.now)) tallies.new.items form.now)) }
        ensures more { OnOk result ((more : List GroupTally)
            × (tallies.new.items ≡ tallies.old.items ++ more) × GiveNumbers self.now slots.now more) }
    {
        if let Form::Key(group) = form {
            return match is_next(group.get(), slots) {
                true => Ok(Some(GroupRead::Key)),
                false => Ok(None),
            };
        }
        match self.group_tally(form, slots) {
            Some(tally) => {
                let place = tallies.len();
                tallies.push(tally)?;
                Ok(Some(GroupRead::Tally(place)))
            }
            None => Ok(None),
        }
    }

    /// The tally that a form is of the group that stands in the slot after these.
    fn group_tally<'f>(&self, form: &'f Form, slots: &Slots<'_, R>) -> Option<GroupTally<'f>>
        ensures tally { IfSome result (IsTallyOf (length (values_in slots.now)) form.now) }
        ensures cell { IfSome result (TallyGivesCell R.table_of R.shown (world self.now)
            (values_in slots.now)) }
    {
        match form {
            Form::Simple(method, of, source) => {
                let begins = Tally::of(*method)?;
                let by = self.items_by(source.get(), slots)?;
                Some(GroupTally { begins, of, by })
            }
            _ => None,
        }
    }

    /// The lambda, if there is one, of which a form has what it gives of each item of the group that stands in
    /// the slot after these.
    fn items_by<'f>(&self, form: &'f Form, slots: &Slots<'_, R>) -> Option<Option<Lambda<'f>>>
        ensures items { IfSome result (λ by. form.now ≡ items_by (length (values_in slots.now)) by) }
        ensures cell { IfSome result (LambdaGivesCell R.table_of R.shown (world self.now)
            (values_in slots.now)) }
    {
        match form {
            Form::Select(items, body) => match is_next(items.get(), slots) {
                true => Some(Some(self.lambda_behind(body.get(), slots))),
                false => None,
            },
            items => match is_next(items, slots) {
                true => Some(None),
                false => None,
            },
        }
    }
}

/// Groups of which a record is selected, and what is read for it.
#[derive(Drop)]
pub struct SelectedGroups<'f> {
    /// What is grouped.
    pub items: &'f Form,
    /// What the members of the record read of a group.
    pub reads: GroupReads<'f>,
    /// Where a row has its key and its numbers.
    pub columns: GroupColumns,
}

impl<'a, R: TableRow, S: Reads<R>, H: Asks> Sources<'a, R, S, H> {
    ghost use Rattle.std.specs.Prelude.{◌≡◌, IfOk, IfSome};
    ghost use Rattle.lq_plan.specs.Aggregates.{AreSelected};

    /// What is selected of groups by a form, in the slot after these, where that is a record of their keys and
    /// tallies of their items, and the items are their own elements; none where it isn't known that this is so.
    /// Refused where no memory was left.
    pub fn selected_groups<'f>(
        &self,
        source: &'f Form,
        body: &'f Form,
        slots: &Slots<'_, R>,
    ) -> Result<Option<SelectedGroups<'f>>, AllocError>
        ensures { IfOk result (λ found. IfSome found
            (AreSelected self.now slots.now source.now body.now)) }
    {
        let Form::GroupBy(items, key, element) = source else {
            return Ok(None);
        };
        let Form::Record(fields) = body else {
            return Ok(None);
        };
        if !self.lambda(element.get(), slots).is_item {
            return Ok(None);
        }
        let Some(reads) = self.group_reads(fields.as_slice(), slots)? else {
            return Ok(None);
        };
        let key = self.lambda(key.get(), slots);
        match GroupColumns::new(self.alloc, &key, reads.tallies.as_slice())? {
            Some(columns) => Ok(Some(SelectedGroups {
                items: items.get(),
                reads,
                columns,
            })),
            None => Ok(None),
        }
    }
}

/// Whether a form is the slot after these.
fn is_next<R: TableRow>(form: &Form, slots: &Slots<'_, R>) -> bool
    ensures { result ≡ true → form.now ≡ of_form.Slot (length (values_in slots.now)) }
{
    match form {
        Form::Slot(number) => slots.is_behind(*number, 0),
        _ => false,
    }
}

/// The columns of a table in which its rows have the key of their group and the numbers for its tallies.
#[derive(Drop)]
pub struct GroupColumns {
    table: TableNumber,
    key: usize,
    // One for each tally; none where it has no number of a row.
    places: Vec<Option<usize>>,
    // The last one of all these columns.
    most: usize,
}

impl GroupColumns {
    ghost use Rattle.std.specs.Prelude.{◌≡◌, ◌∷◌, ◌++◌, ◌≤◌, [], IfOk, IfSome, List, Option, true, ℕ};
    ghost use Rattle.lq_value.specs.declared.value.Value.{Value};
    ghost use Rattle.lq_value.specs.declared.value.Value.TheVariants as value;
    ghost use Rattle.lq_language.specs.Worlds.{World};
    ghost use Rattle.lq_plan.specs.Aggregates.{AddsItem, AreColumns, IsColumnOf, TalliesGiveCells, begins_in};
    ghost use Rattle.lq_plan.specs.Prepared.{GivesCell};
    ghost use Rattle.lq_plan.specs.declared.aggregates.GroupTally.{GroupTally};
    ghost use Rattle.lq_plan.specs.declared.lambdas.Lambda.{Lambda};

    /// The columns of the cells that the lambdas of a key and of tallies are known to give; none where one of
    /// them isn't known to give one, or gives one of another table. Refused where no memory was left.
    pub fn new(
        alloc: Global,
        key: &Lambda<'_>,
        tallies: &[GroupTally<'_>],
    ) -> Result<Option<GroupColumns>, AllocError>
        ensures { IfOk result (λ found. IfSome found (AreColumns key.now tallies.now)) }
    {
        let Some(place) = key.place else {
            return Ok(None);
        };
        let mut columns = GroupColumns {
            table: key.table,
            key: place,
            places: Vec::new(alloc),
            most: place,
        };
        for tally in tallies {
            if !columns.push(tally.by)? {
                return Ok(None);
            }
        }
        Ok(Some(columns))
    }

    /// Puts the column of a tally behind the others; false where its lambda isn't known to give a cell of the
    /// same table.
    fn push(&mut self, by: Option<Lambda<'_>>) -> Result<bool, AllocError>
        ensures column { IfOk result (λ given. given ≡ true → (place : Option ℕ)
            × (self.new.places.items ≡ self.old.places.items ++ place ∷ [])
            × IsColumnOf self.old.table self.new.most by.entry place) }
        ensures table { self.new.table ≡ self.old.table }
        ensures key { self.new.key ≡ self.old.key }
        ensures most { self.old.most ≤ self.new.most }
    {
        let Some(lambda) = by else {
            self.places.push(None)?;
            return Ok(true);
        };
        match lambda.place {
            Some(place) if lambda.table == self.table => {
                self.places.push(Some(place))?;
                self.most = self.most.max(place);
                Ok(true)
            }
            _ => Ok(false),
        }
    }

    /// Adds a row to the tallies of its group; false where it isn't known which one that is, or what its
    /// numbers are. Refused where no memory was left.
    #[inline(always)]
    pub fn add<R: TableRow>(
        &self,
        alloc: Global,
        row: &R,
        tallies: &mut GroupTallies<R>,
    ) -> Result<bool, AllocError>
        ensures added { IfOk result (λ given. given ≡ true → (world : World R) (slots : List (Value R))
            (key : Lambda) (of : List GroupTally) → tallies.old.begins ≡ begins_in of
            → AreColumns key of self.now
            → GivesCell R.table_of R.shown world slots key
            → TalliesGiveCells R.table_of R.shown world slots of
            → AddsItem world slots key.body.now of tallies.old (value.Row row.now) tallies.new) }
        ensures begins { tallies.new.begins ≡ tallies.old.begins }
    {
        let cells = row.cells();
        if row.table() != self.table || cells.len() <= self.most {
            return Ok(false);
        }
        match cells.get(self.key) {
            Some(key) => {
                tallies.add_row(alloc, key, cells, self.places.as_slice())?;
                Ok(true)
            }
            None => Ok(false),
        }
    }
}
