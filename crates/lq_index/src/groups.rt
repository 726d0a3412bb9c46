//! Groups of places: those of scalars that several rows have.
ghost use Rattle.std.specs.Prelude.{◌≡◌, ◌∷◌, [], IfOk};
ghost use Rattle.lq_index.specs.Slots.{head_of};

use crate::compaction::{numbers_of, retain_some};
use crate::renumbering::renumber_lists;
use lq_value::List;
use std::alloc::{AllocError, Global};
use std::marker::Model;

// Lists of places by number.
#[derive(Drop)]
pub struct Groups {
    lists: Vec<List<usize>>,
}

impl Model for Groups {
    ghost use Rattle.std.specs.Prelude.{List, ℕ};

    ghost Value = { List (List ℕ) };

    ghost view = { λ g. g.lists.items };
}

impl Groups {
    ghost use Rattle.std.specs.Prelude.{◌≡◌, ◌<◌, ◌++◌, [], ◌∷◌, ℕ, filter, get_or, length, set, IfOk, OnOk, OnErr};
    ghost use Rattle.lq_index.specs.Compactions.{has_some, numbers_from};
    ghost use Rattle.lq_index.specs.Removals.{renumber};

    // No groups. Takes no memory.
    pub(crate) fn new(alloc: Global) -> Groups
        ensures { result ≡ [] }
    {
        Groups {
            lists: Vec::new(alloc),
        }
    }

    // How many groups there are.
    #[inline(always)]
    pub(crate) fn len(&self) -> usize
        ensures { result ≡ length self.now }
    {
        self.lists.len()
    }

    // The places of a group.
    #[inline(always)]
    pub(crate) fn places(&self, group: u32) -> &[usize]
        ensures { result.now ≡ get_or self.now group [] }
    {
        match self.lists.as_slice().get(group as usize) {
            Some(list) => list.as_slice(),
            None => &[],
        }
    }

    // Puts a group of two places behind the others.
    pub(crate) fn open(
        &mut self,
        alloc: Global,
        first: usize,
        second: usize,
    ) -> Result<(), AllocError>
        ensures ok { OnOk result (self.new ≡ self.old ++ (first ∷ second ∷ []) ∷ []) }
        ensures err { OnErr result (self.new ≡ self.old) }
    {
        self.lists.push(pair(alloc, first, second)?)?;
        Ok(())
    }

    // Puts a place behind those of a group.
    pub(crate) fn push(&mut self, group: u32, place: usize) -> Result<(), AllocError>
        requires { group < length self.old }
        ensures long { length self.new ≡ length self.old }
        ensures ok { OnOk result
            (self.new ≡ set self.old group (get_or self.old group [] ++ place ∷ [])) }
        ensures err { OnErr result ((g : ℕ) → get_or self.new g [] ≡ get_or self.old g []) }
    {
        self.lists[group as usize].push(place)?;
        Ok(())
    }

    // The new number of each group where those without places are let go.
    pub(crate) fn numbers(&self, alloc: Global) -> Result<Vec<usize>, AllocError>
        ensures { IfOk result (λ numbers. numbers.items ≡ numbers_from 0 0 self.now) }
    {
        numbers_of(alloc, self.lists.as_slice())
    }

    // Lets go of the groups without places.
    pub(crate) fn retain_some(&mut self)
        ensures { self.new ≡ filter has_some self.old }
    {
        retain_some(&mut self.lists);
    }

    // Gives all places their ranks, and lets go of those that have none.
    pub(crate) fn renumber(&mut self, ranks: &[usize])
        ensures long { length self.new ≡ length self.old }
        ensures each { (g : ℕ) → get_or self.new g [] ≡ renumber ranks.now (get_or self.old g []) }
    {
        renumber_lists(&mut self.lists, ranks);
    }
}

// A list of two places.
fn pair(alloc: Global, first: usize, second: usize) -> Result<List<usize>, AllocError>
    ensures { IfOk result (λ list. list ≡ first ∷ second ∷ []) }
{
    let mut places = Vec::with_capacity(alloc, 2)?;
    places.push(first)?;
    places.push(second)?;
    Ok(List::from_vec(places))
}

// The first of these places.
#[inline(always)]
pub(crate) fn first_of(places: &[usize]) -> Option<usize>
    ensures { result ≡ head_of places.now }
{
    match places {
        [first, ..] => Some(*first),
        [] => None,
    }
}
