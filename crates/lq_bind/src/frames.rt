//! Frames: the local names in scope, borrowed where they stand.
use crate::variables::Variables;
use lq_tree::{Form, Tree};
use lq_typing::copy_ty;
use lq_value::{Held, Txt, Ty};
use std::alloc::{AllocError, Global};

/// The local names, as a chain from the innermost lambda outwards. One lambda more stands on the
/// machine's stack, and takes no memory.
#[derive(Clone, Copy)]
#[cycle(frames)]
pub(crate) enum Frame<'a> {
    /// No local name, and so many slots in use.
    Top(usize),
    /// These names, and those of an item in one slot more.
    Item(&'a Frame<'a>, &'a Variables),
    /// These names, and one more, with its type, for the value in one slot more.
    Name(&'a Frame<'a>, &'a Txt, &'a Ty),
}

impl<'a> Frame<'a> {
    ghost use Rattle.std.specs.Prelude.{◌≡◌, IfOk, is_some, option_map};
    ghost use Rattle.lq_tree.specs.Places.{place_of, with_item, with_name};
    ghost use Rattle.lq_bind.specs.Frames.{is_fresh_in, pattern_in, place_tree, places_in};

    /// These names, and those of an item.
    #[tactic(auto, using(crate::proofs::FrameLemmas::chains))]
    pub(crate) fn with_item<'b>(&'b self, variables: &'b Variables) -> Frame<'b>
        ensures { places_in result ≡ with_item (places_in self.now) (pattern_in variables.now) }
    {
        Frame::Item(self, variables)
    }

    /// These names, and one more.
    #[tactic(auto, using(crate::proofs::FrameLemmas::chains))]
    pub(crate) fn with_name<'b>(&'b self, name: &'b Txt, ty: &'b Ty) -> Frame<'b>
        ensures { places_in result ≡ with_name (places_in self.now) name.now ty.now }
    {
        Frame::Name(self, name, ty)
    }

    /// How many slots are in use. No chain is longer than numbers reach; one that were is refused
    /// as past all memory.
    #[tactic(auto, using(crate::proofs::FrameLemmas::chains))]
    pub(crate) fn depth(&self) -> Result<usize, AllocError>
        ensures { IfOk result (λ slots. slots ≡ (places_in self.now).depth) }
    {
        match self {
            Frame::Top(slots) => Ok(*slots),
            Frame::Item(outer, _) | Frame::Name(outer, _, _) => match outer
                .depth()?
                .checked_add(1)
            {
                Some(slots) => Ok(slots),
                None => Err(AllocError),
            },
        }
    }

    /// Whether the name is a local name.
    #[tactic(auto, using(crate::proofs::FrameLemmas::chains, crate::proofs::FrameLemmas::lookups))]
    fn has_name(&self, name: &str) -> bool
        ensures { result ≡ is_some (place_of name.now (places_in self.now).locals) }
    {
        match self {
            Frame::Top(_) => false,
            Frame::Item(outer, variables) => variables.has_name(name) || outer.has_name(name),
            Frame::Name(outer, local, _) => local.as_str() == name || outer.has_name(name),
        }
    }

    /// Whether the name may be brought in: it is no local name yet (ECMA-334, scopes).
    #[tactic(auto, using(crate::proofs::FrameLemmas::local_types))]
    pub(crate) fn is_fresh(&self, name: &str) -> bool
        ensures { result ≡ is_fresh_in (places_in self.now) name.now }
    {
        !self.has_name(name)
    }

    /// What the name stands for, where it is a local name.
    #[tactic(auto, using(crate::proofs::FrameLemmas::chains, crate::proofs::FrameLemmas::lookups))]
    pub(crate) fn find(&self, alloc: Global, name: &str) -> Result<Option<Tree>, AllocError>
        ensures { IfOk result (λ tree. tree
            ≡ option_map place_tree (place_of name.now (places_in self.now).locals)) }
    {
        match self {
            Frame::Top(_) => Ok(None),
            Frame::Item(outer, variables) => {
                if !variables.has_name(name) {
                    return outer.find(alloc, name);
                }
                let slot = Form::Slot(outer.depth()?);
                variables.find(alloc, name, Held::new(alloc, slot)?)
            }
            Frame::Name(outer, local, ty) => {
                if local.as_str() != name {
                    return outer.find(alloc, name);
                }
                let ty = copy_ty(alloc, ty)?;
                let form = Held::new(alloc, Form::Slot(outer.depth()?))?;
                Ok(Some(Tree { ty, form }))
            }
        }
    }
}
