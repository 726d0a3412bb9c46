//! Keys that are hashed.
ghost use Rattle.std.specs.Prelude.{◌≡◌, ◌∷◌, ◌++◌, [], IfOk, OnOk};
ghost use Rattle.lq_value.specs.declared.key.Atom.TheVariants as atom;
ghost use Rattle.std.specs.Cmp.{decided, partial_equiv_from_equiv};
ghost use Rattle.std.specs.Hash.{same_Alike};
ghost use Rattle.lq_value.specs.KeyTests.{atom_fed, atom_is, atoms_decide, key_fed, key_is, keys_decide};
ghost use Rattle.lq_value.specs.Keys.{atoms_of, key_of_scalar, key_value, members_atoms};

use crate::copies::copy_scalar;
use crate::list::List;
use crate::sameness::are_same_contents;
use crate::scalar::Scalar;
use crate::txt::Txt;
use crate::value::{RowRef, Value};
use std::alloc::{AllocError, Global};
use std::hash::{Hash, Hasher};

/// A piece of the key of a record.
#[derive(Drop)]
pub enum Atom {
    /// A member that is a scalar.
    One(Scalar),
    /// The head of a member that is a record.
    Open,
    /// The end of that member.
    Close,
}

/// What represents a value where a great number of values is compared. It is flat, so that it is
/// hashed and compared in one go: a scalar's content, or the scalars in a record in their order, with
/// marks at the head and the end of each record in it. For two values of one key type, the keys are
/// equal exactly where the values are the same.
#[derive(Drop)]
pub enum Key {
    /// The key of null, also of a null record.
    Null,
    /// The key of an int.
    Int(i32),
    /// The key of a truth value.
    Bool(bool),
    /// The key of a text.
    Text(Txt),
    /// The key of a record.
    Record(List<Atom>),
}

impl PartialEq for Atom {
    ghost eq = { atom_is };

    ghost laws = { partial_equiv_from_equiv (decided atom_is atoms_decide) };

    fn eq(&self, other: &Atom) -> bool {
        match (self, other) {
            (Atom::One(left), Atom::One(right)) => are_same_contents(left, right),
            (Atom::Open, Atom::Open) => true,
            (Atom::Close, Atom::Close) => true,
            _ => false,
        }
    }
}

impl Eq for Atom {
    ghost laws = { decided atom_is atoms_decide };
}

impl Hash for Atom {
    ghost hash_input = { atom_fed };

    ghost respects_eq = { (same_Alike atom_fed atoms_decide).fed };

    fn hash<H: Hasher>(&self, state: &mut H) {
        match self {
            Atom::One(Scalar::Null) => state.write_u8(2),
            Atom::One(Scalar::Int(number)) => state.write_i32(*number),
            Atom::One(Scalar::Bool(truth)) => truth.hash(state),
            Atom::One(Scalar::Text(text)) => text.as_str().hash(state),
            Atom::Open => state.write_u8(3),
            Atom::Close => state.write_u8(4),
        }
    }
}

impl PartialEq for Key {
    ghost eq = { key_is };

    ghost laws = { partial_equiv_from_equiv (decided key_is keys_decide) };

    #[inline]
    fn eq(&self, other: &Key) -> bool {
        match (self, other) {
            (Key::Int(left), Key::Int(right)) => left == right,
            (Key::Text(left), Key::Text(right)) => left.as_str() == right.as_str(),
            (Key::Null, Key::Null) => true,
            (Key::Bool(left), Key::Bool(right)) => left == right,
            (Key::Record(left), Key::Record(right)) => left.as_slice() == right.as_slice(),
            _ => false,
        }
    }
}

impl Eq for Key {
    ghost laws = { decided key_is keys_decide };
}

impl Hash for Key {
    ghost hash_input = { key_fed };

    ghost respects_eq = { (same_Alike key_fed keys_decide).fed };

    #[inline]
    fn hash<H: Hasher>(&self, state: &mut H) {
        match self {
            Key::Null => state.write_u8(2),
            Key::Int(number) => state.write_i32(*number),
            Key::Bool(truth) => truth.hash(state),
            Key::Text(text) => text.as_str().hash(state),
            Key::Record(atoms) => atoms.as_slice().hash(state),
        }
    }
}

/// The key of `value`. What isn't a key (a row, a group or a sequence) has the key of null.
#[tactic(auto, using(crate::proofs::KeyLaws::keying))]
pub fn key_of<R: RowRef>(alloc: Global, value: &Value<R>) -> Result<Key, AllocError>
    ensures { IfOk result (λ key. key ≡ key_value value.now) }
{
    match value {
        Value::Scalar(scalar) => scalar_key(alloc, scalar),
        Value::Rec(members) => {
            let mut atoms = List::new(alloc);
            push_members(alloc, &mut atoms, members.as_slice())?;
            Ok(Key::Record(atoms))
        }
        Value::Row(_) => Ok(Key::Null),
        Value::Group(_, _) => Ok(Key::Null),
        Value::Seq(_, _) => Ok(Key::Null),
    }
}

fn scalar_key(alloc: Global, scalar: &Scalar) -> Result<Key, AllocError>
    ensures { IfOk result (λ key. key ≡ key_of_scalar scalar.now) }
{
    match scalar {
        Scalar::Null => Ok(Key::Null),
        Scalar::Int(number) => Ok(Key::Int(*number)),
        Scalar::Bool(truth) => Ok(Key::Bool(*truth)),
        Scalar::Text(text) => Ok(Key::Text(Txt::from_str(alloc, text.as_str())?)),
    }
}

// Puts the atoms of a value after those that are there.
#[cycle(atoms)]
#[tactic(auto, using(crate::proofs::KeyLaws::keying))]
fn push_value<R: RowRef>(
    alloc: Global,
    atoms: &mut List<Atom>,
    value: &Value<R>,
) -> Result<(), AllocError>
    ensures { OnOk result (atoms.new ≡ atoms.old ++ atoms_of value.now) }
{
    match value {
        Value::Scalar(scalar) => push_scalar(alloc, atoms, scalar),
        Value::Rec(members) => push_record(alloc, atoms, members.as_slice()),
        Value::Row(_) => atoms.push(Atom::One(Scalar::Null)),
        Value::Group(_, _) => atoms.push(Atom::One(Scalar::Null)),
        Value::Seq(_, _) => atoms.push(Atom::One(Scalar::Null)),
    }
}

fn push_scalar(alloc: Global, atoms: &mut List<Atom>, scalar: &Scalar) -> Result<(), AllocError>
    ensures { OnOk result (atoms.new ≡ atoms.old ++ atom.One scalar.now ∷ []) }
{
    let copy = copy_scalar(alloc, scalar)?;
    atoms.push(Atom::One(copy))
}

#[cycle(atoms)]
#[tactic(auto, using(crate::proofs::KeyLaws::keying))]
fn push_record<R: RowRef>(
    alloc: Global,
    atoms: &mut List<Atom>,
    members: &[(Txt, Value<R>)],
) -> Result<(), AllocError>
    ensures { OnOk result (atoms.new ≡ atoms.old
        ++ atom.Open ∷ (members_atoms members.now ++ atom.Close ∷ [])) }
{
    atoms.push(Atom::Open)?;
    push_members(alloc, atoms, members)?;
    atoms.push(Atom::Close)?;
    Ok(())
}

#[cycle(atoms)]
#[tactic(auto, using(crate::proofs::KeyLaws::keying))]
fn push_members<R: RowRef>(
    alloc: Global,
    atoms: &mut List<Atom>,
    members: &[(Txt, Value<R>)],
) -> Result<(), AllocError>
    ensures { OnOk result (atoms.new ≡ atoms.old ++ members_atoms members.now) }
{
    for (_, value) in members {
        push_value(alloc, atoms, value)?;
    }
    Ok(())
}

/// A key equal to `key`.
pub fn copy_key(alloc: Global, key: &Key) -> Result<Key, AllocError>
    ensures { IfOk result (λ copy. copy ≡ key.now) }
{
    match key {
        Key::Null => Ok(Key::Null),
        Key::Int(number) => Ok(Key::Int(*number)),
        Key::Bool(truth) => Ok(Key::Bool(*truth)),
        Key::Text(text) => Ok(Key::Text(Txt::from_str(alloc, text.as_str())?)),
        Key::Record(atoms) => Ok(Key::Record(copy_atoms(alloc, atoms.as_slice())?)),
    }
}

fn copy_atoms(alloc: Global, atoms: &[Atom]) -> Result<List<Atom>, AllocError>
    ensures { IfOk result (λ copy. copy ≡ atoms.now) }
{
    let mut copies = List::new(alloc);
    for atom in atoms {
        copies.push(copy_atom(alloc, atom)?)?;
    }
    Ok(copies)
}

fn copy_atom(alloc: Global, atom: &Atom) -> Result<Atom, AllocError>
    ensures { IfOk result (λ copy. copy ≡ atom.now) }
{
    match atom {
        Atom::One(scalar) => Ok(Atom::One(copy_scalar(alloc, scalar)?)),
        Atom::Open => Ok(Atom::Open),
        Atom::Close => Ok(Atom::Close),
    }
}
