//! Sets of names.
use indexmap::IndexSet;
use lq_value::Txt;
use std::alloc::{AllocError, Global};
use std::marker::Model;

/// Names, each once, in the order in which they came.
#[derive(Drop)]
pub(crate) struct NameSet<'a> {
    names: IndexSet<&'a str>,
}

impl<'a> Model for NameSet<'a> {
    ghost use Rattle.std.specs.Prelude.{List, ℕ, map};

    ghost Value = { List (List ℕ) };

    ghost view = { λ s. map (λ name. name.now) s.names.keys };
}

impl<'a> NameSet<'a> {
    ghost use Rattle.std.specs.Prelude.{◌≡◌, [], not, IfOk, OnOk, position};
    ghost use Rattle.std.specs.List.{list_all};
    ghost use Rattle.std.specs.Str.{bytes_eq};
    ghost use Rattle.lq_policyfile.specs.Names.{is_among};
    ghost use Rattle.lq_policyfile.specs.NameSets.{with_name};

    /// The set of no names. Takes no memory.
    pub fn new(alloc: Global) -> NameSet<'a>
        ensures { result ≡ [] }
    {
        NameSet {
            names: IndexSet::new(alloc),
        }
    }

    /// Whether the set has the name.
    pub fn contains(&self, name: &str) -> bool
        ensures { result ≡ is_among self.now name.now }
    {
        self.names.contains(name)
    }

    /// Whether the set has each of the names.
    pub fn has_all(&self, names: &[Txt]) -> bool
        ensures { result ≡ list_all (is_among self.now) names.now }
    {
        names.iter().all(|name| self.contains(name.as_str()))
    }

    /// The place of the name, from 0.
    pub fn place(&self, name: &str) -> Option<usize>
        ensures { result ≡ position (bytes_eq name.now) self.now }
    {
        self.names.get_index_of(name)
    }

    /// Puts the name after the others, unless the set has it; returns whether it is new.
    pub fn add(&mut self, name: &'a str) -> Result<bool, AllocError>
        ensures new { IfOk result (λ is_new. is_new ≡ not (is_among self.old name.now)) }
        ensures names { OnOk result (self.new ≡ with_name self.old name.now) }
    {
        Ok(self.names.insert(name)?)
    }
}
