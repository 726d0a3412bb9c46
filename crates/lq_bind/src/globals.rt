//! The binding of names: local names, tables, and the variables and named queries of a session
//! (ECMA-334, simple names).
ghost use Rattle.std.specs.Prelude.{◌≡◌, ◌≤◌, length, option_map, take};
ghost use Rattle.lq_value.specs.Tables.{first_named};
ghost use Rattle.lq_bind.specs.Bound.{defined_before};

use crate::binder::Binder;
use crate::error::TermError;
use crate::frames::Frame;
use crate::names;
use lq_machine::{Defined, Definition};
use lq_translate::translate_expression;
use lq_tree::Tree;

/// The number of the definition of this name.
fn place_of(definitions: &[Definition], name: &str) -> Option<usize>
    ensures { result ≡ first_named (λ definition. definition.name) name.now definitions.now }
{
    definitions
        .iter()
        .position(|definition| definition.name.as_str() == name)
}

/// The definitions before the one of this number.
fn before(definitions: &[Definition], place: usize) -> &[Definition]
    requires { place ≤ length definitions.now }
    ensures { result.now ≡ take place definitions.now }
{
    &definitions[..place]
}

/// The definition of this name, and those before it.
fn definition_of<'a>(
    definitions: &'a [Definition],
    name: &str,
) -> Option<(&'a [Definition], &'a Definition)>
    ensures { option_map (λ there. (there.0.now, there.1.now)) result
        ≡ defined_before name.now definitions.now }
{
    let place = place_of(definitions, name)?;
    let definition = definitions.get(place)?;
    Some((before(definitions, place), definition))
}

impl Binder<'_> {
    ghost use Rattle.std.specs.Prelude.{Some};
    ghost use Rattle.lq_grammar.specs.declared.syntax.Node.TheVariants as expression;
    ghost use Rattle.lq_bind.specs.Bound.{defined_at, node_at, session_at};
    ghost use Rattle.lq_bind.specs.Outcomes.{Gives};

    /// What a name stands for: a local name, which hides all others of its spelling; else the rows
    /// of a table; and else what the session has under it.
    #[cycle(binding)]
    #[inline(never)]
    #[tactic(auto, using(crate::proofs::TermLaws::local_names, crate::proofs::TermLaws::globals))]
    pub(crate) fn name(&self, name: &str, frame: &Frame<'_>) -> Result<Tree, TermError>
        ensures { Gives (node_at self.now frame.now (expression.Name name.now)) result }
    {
        if let Some(local) = frame.find(self.alloc, name)? {
            return Ok(local);
        }
        if let Some(rows) = names::rows(self.alloc, self.store, name)? {
            return Ok(rows);
        }
        self.session_name(name, frame)
    }

    /// What a name of the session stands for.
    #[cycle(binding)]
    #[tactic(auto, using(crate::proofs::SessionLemmas::places, crate::proofs::Weights::weights))]
    fn session_name(&self, name: &str, frame: &Frame<'_>) -> Result<Tree, TermError>
        ensures { Gives (session_at self.now frame.now name.now) result }
    {
        let Some((definitions, definition)) = definition_of(self.definitions, name) else {
            return Err(TermError::IllTyped);
        };
        let earlier = Binder {
            alloc: self.alloc,
            store: self.store,
            hosts: self.hosts,
            definitions,
        };
        // A definition always has a tree, so that memory alone can be lacking.
        match earlier.definition(&definition.defined, frame) {
            Ok(tree) => Ok(tree),
            Err(_) => Err(TermError::Memory),
        }
    }

    /// What a name stands for that was defined where these names of the session were known: the
    /// value of a variable; or the tree of a named query's expression, which sees no local name of
    /// the place where it is opened, and that of null, where it has no type there.
    #[cycle(binding)]
    #[inline(never)]
    #[tactic(auto, using(crate::proofs::FrameLemmas::chains))]
    fn definition(&self, defined: &Defined, frame: &Frame<'_>) -> Result<Tree, TermError>
        ensures { Gives (Some (defined_at self.now frame.now defined.now)) result }
    {
        match defined {
            Defined::Variable(ty, value) => names::variable(self.alloc, ty, value),
            Defined::Query(query, _) => {
                let term = translate_expression(self.alloc, query)?;
                let outside = Frame::Top(frame.depth()?);
                match self.term(&term, &outside) {
                    Ok(tree) => Ok(tree),
                    Err(TermError::IllTyped) => names::null(self.alloc),
                    Err(TermError::Memory) => Err(TermError::Memory),
                }
            }
        }
    }
}
