//! Names of members, prepared for writing.
ghost use Rattle.std.specs.Prelude.{◌≡◌, ◌∷◌, ◌++◌, [], IfOk, OnOk};
ghost use Rattle.json.specs.Print.{quoted};
ghost use Rattle.lq_json.specs.Texts.{front};

use crate::text::Text;
use json::Writer;
use lq_value::Txt;
use std::alloc::{AllocError, Global};
use std::marker::Model;

/// How many bytes are stored at once of what is in front of a member.
const BLOCK: usize = 32;

/// A member's name, and what is in front of a member of this name that stands behind another.
// That are the first `len` bytes of `padded`; zeros behind them let a whole block be read.
#[derive(Drop)]
pub(crate) struct Name {
    name: Txt,
    padded: Vec<u8>,
    len: usize,
}

impl Model for Name {
    ghost use Rattle.std.specs.Prelude.{List, ℕ};
    ghost use Rattle.lq_json.specs.Texts.{HasFront};

    ghost Value = { List ℕ };

    ghost view = { λ n. n.name };

    ghost invariant = { λ n. HasFront n.padded.items n.len n.name };
}

/// What is in front of a member of this name that stands behind another.
#[tactic(auto, using(crate::proofs::Written::print_key))]
fn front_of(alloc: Global, name: &str) -> Result<Vec<u8>, AllocError>
    ensures { IfOk result (λ bytes. bytes.items ≡ 44 ∷ (quoted name.now ++ 58 ∷ [])) }
{
    let mut bytes = Vec::new(alloc);
    bytes.push(b',')?;
    let mut writer = Writer::new(bytes);
    writer.key(name)?;
    Ok(writer.into_inner())
}

impl Name {
    /// The name, with its front.
    pub(crate) fn new(alloc: Global, name: &str) -> Result<Name, AllocError>
        ensures { IfOk result (λ n. n ≡ name.now) }
    {
        let mut padded = front_of(alloc, name)?;
        let len = padded.len();
        padded.resize(len + BLOCK, 0)?;
        let name = Txt::from_str(alloc, name)?;
        Ok(Name { name, padded, len })
    }

    /// The bytes of the name.
    pub(crate) fn as_bytes(&self) -> &[u8]
        ensures { result.now ≡ self.now }
    {
        self.name.as_bytes()
    }

    /// Writes what is in front of a member of this name: a comma where another is before it, the
    /// name and a colon.
    #[inline(always)]
    pub(crate) fn write_front(&self, later: bool, out: &mut Text) -> Result<(), AllocError>
        ensures { OnOk result (out.new ≡ out.old ++ front later self.now) }
    {
        if later && self.len <= BLOCK {
            return out.put_block::<BLOCK>(self.padded.as_slice(), self.len);
        }
        let front = &self.padded[..self.len];
        out.put(if later { front } else { &front[1..] })
    }
}
