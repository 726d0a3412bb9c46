//! Types: copies of them, what may be done with values of a type, and which types operators and methods
//! give (ECMA-334, expressions; .NET, Enumerable).
//!
//! Each call answers exactly what the definitions of the language's types say, or that memory was refused.
#![tactic(auto)]

mod types;
mod typing;

pub use types::{
    copy_ty, element_type, has_place, is_bool, is_convertible, is_key, is_number, is_sequence,
    is_sort_key, is_text, is_within,
};
pub use typing::{
    are_join_keys, choice_type, coalesced_type, given_type, is_equality, operated_type,
    simple_type, through_type,
};
