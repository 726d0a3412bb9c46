//! The variables of an item: what it stands for between two calls (ECMA-334, transparent
//! identifiers).
ghost use Rattle.std.specs.Prelude.{◌≡◌, [], IfOk, option_map};
ghost use Rattle.lq_language.specs.Operators.{One, With, pair_type, pattern_type, unnamed};
ghost use Rattle.lq_tree.specs.Places.{place_of, places_of};
ghost use Rattle.lq_bind.specs.Frames.{is_among, pattern_in, place_tree};

use lq_tree::{Form, Tree};
use lq_typing::copy_ty;
use lq_value::{Held, List, Txt, Ty};
use std::alloc::{AllocError, Global};

/// The range variables that an item has the values of, with their types.
#[derive(Drop)]
#[cycle(variables)]
pub(crate) enum Variables {
    /// The item is the value of one variable.
    One(Txt, Ty),
    /// The item is a pair of what has the values of these, and the value of one more.
    With(Held<Variables>, Txt, Ty),
}

/// The type of a pair.
fn pair_type(alloc: Global, first: Ty, second: Ty) -> Result<Ty, AllocError>
    ensures { IfOk result (λ ty. ty ≡ pair_type first second) }
{
    let mut members = List::new(alloc);
    members.push((Txt::from_str(alloc, "")?, first))?;
    members.push((Txt::from_str(alloc, "")?, second))?;
    Ok(Ty::Rec(members))
}

/// The one variable of an item that no name stands for.
#[tactic(auto, using(crate::proofs::FrameLemmas::patterns))]
pub(crate) fn unnamed(alloc: Global, ty: Ty) -> Result<Held<Variables>, AllocError>
    ensures { IfOk result (λ variables. pattern_in variables ≡ unnamed ty) }
{
    let name = Txt::from_str(alloc, "")?;
    Held::new(alloc, Variables::One(name, ty))
}

impl Variables {
    /// Whether the name is that of a variable.
    #[tactic(auto, using(crate::proofs::FrameLemmas::patterns))]
    pub(crate) fn has_name(&self, name: &str) -> bool
        ensures { result ≡ is_among name.now (pattern_in self.now) }
    {
        match self {
            Variables::One(variable, _) => variable.as_str() == name,
            Variables::With(others, variable, _) => {
                variable.as_str() == name || others.get().has_name(name)
            }
        }
    }

    /// What the name stands for where the form is that of the item.
    #[tactic(auto, using(crate::proofs::FrameLemmas::patterns))]
    pub(crate) fn find(
        &self,
        alloc: Global,
        name: &str,
        item: Held<Form>,
    ) -> Result<Option<Tree>, AllocError>
        ensures { IfOk result (λ tree. tree
            ≡ option_map place_tree (place_of name.now (places_of (pattern_in self.now) item []))) }
    {
        match self {
            Variables::One(variable, ty) => {
                if variable.as_str() != name {
                    return Ok(None);
                }
                let ty = copy_ty(alloc, ty)?;
                Ok(Some(Tree { ty, form: item }))
            }
            Variables::With(others, variable, ty) => {
                if variable.as_str() != name {
                    let first = Held::new(alloc, Form::First(item))?;
                    return others.get().find(alloc, name, first);
                }
                let ty = copy_ty(alloc, ty)?;
                let form = Held::new(alloc, Form::Second(item))?;
                Ok(Some(Tree { ty, form }))
            }
        }
    }

    /// The type of the item, copied.
    #[tactic(auto, using(crate::proofs::FrameLemmas::patterns))]
    pub(crate) fn item_type(&self, alloc: Global) -> Result<Ty, AllocError>
        ensures { IfOk result (λ ty. ty ≡ pattern_type (pattern_in self.now)) }
    {
        match self {
            Variables::One(_, ty) => copy_ty(alloc, ty),
            Variables::With(others, _, ty) => {
                let others = others.get().item_type(alloc)?;
                pair_type(alloc, others, copy_ty(alloc, ty)?)
            }
        }
    }

    /// The type of the item.
    #[tactic(auto, using(crate::proofs::FrameLemmas::patterns))]
    pub(crate) fn into_type(self, alloc: Global) -> Result<Ty, AllocError>
        ensures { IfOk result (λ ty. ty ≡ pattern_type (pattern_in self)) }
    {
        match self {
            Variables::One(_, ty) => Ok(ty),
            Variables::With(others, _, ty) => {
                let others = others.into_inner().into_type(alloc)?;
                pair_type(alloc, others, ty)
            }
        }
    }
}
