//! Definitions, where an assignment finds and changes them.
ghost use Rattle.std.specs.Prelude.{◌≡◌};
ghost use Rattle.lq_value.specs.Tables.{first_named};
ghost use Rattle.lq_run.specs.States.{with_value};

use lq_machine::{Defined, Definition};
use lq_value::Scalar;

/// The place of the first definition of this name.
pub(crate) fn place_of(definitions: &[Definition], name: &str) -> Option<usize>
    ensures { result ≡ first_named (λ d. d.name) name.now definitions.now }
{
    for (place, definition) in definitions.iter().enumerate() {
        if definition.name.as_str() == name {
            return Some(place);
        }
    }
    None
}

/// Gives a variable another value; a named query stays.
pub(crate) fn renew(definition: &mut Definition, value: Scalar)
    ensures { definition.new ≡ with_value value definition.old }
{
    if let Defined::Variable(_, old) = &mut definition.defined {
        *old = value;
    }
}
