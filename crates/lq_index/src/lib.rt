//! The index of a column: for each scalar the places of the rows whose cell is the same.
//!
//! An `Index` is a table of slots with open addressing. A slot has 32 bits of a scalar's hash, and the
//! only place of the scalar, or the number of a group of places. No cell is copied: a search compares
//! the cell at a slot's first place, and that only where the hashes agree. So the functions that
//! compare cells take the rows of the table and the number of the column; an index that was built of
//! a column stays right as long as each row that is added to the table is added to the index, and the
//! index is told of each removal.
//!
//! `find` gives exactly the places of the cells that are the same, in order, for null as for any
//! other scalar, and takes no memory. A place that stands alone is lent from the numbers 0, 1, 2 and
//! so on that all indexes of a table share. `remove` takes no memory either. Refused memory leaves an
//! index as it was, apart from the room that it has.
#![tactic(auto)]

mod cells;
mod compaction;
mod groups;
mod hashing;
mod index;
mod moves;
mod renumbering;
mod slot;
mod slot_table;

pub use index::Index;
