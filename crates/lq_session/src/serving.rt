//! The types by which the values are served that lines ask for.
ghost use Rattle.std.specs.Prelude.{◌≡◌, Some, IfOk};
ghost use Rattle.lq_value.specs.declared.ty.Ty.{out-Ty};
ghost use Rattle.lq_grammar.specs.Reading.{Says, reading_of};
ghost use Rattle.lq_grammar.specs.Tokens.{tokens_of};
ghost use Rattle.lq_language.specs.Types.{has_place, when};
ghost use Rattle.lq_machine.specs.ServedTypes.{line_type};
ghost use Rattle.lq_run.specs.States.{HoldsOf};
ghost use Rattle.lq_session.specs.ServedTypes.{ServesLine};

use crate::lines::{opening_of, statement_of, tokens_of};
use lq_grammar::{Statement, Token};
use lq_run::{State, Stop, tree_of};
use lq_tree::ty;
use lq_typing::{copy_ty, has_place};
use lq_value::Ty;
use std::alloc::{AllocError, Global};

/// A copy of the type, if it is any but that of null, which can't be in a reply.
fn placed_type(alloc: Global, given: &Ty) -> Result<Option<Ty>, AllocError>
    ensures { IfOk result (λ ty. ty
        ≡ when (has_place (out-Ty given.now)) (Some given.now)) }
{
    if has_place(given) {
        Ok(Some(copy_ty(alloc, given)?))
    } else {
        Ok(None)
    }
}

/// The type that the statement of a line is served by, where nothing stops it before it is served. The statement is borrowed, and
/// the tree dropped by a call, so that no path out of here drops their parts one by one.
fn type_of_statement(
    alloc: Global,
    line: &str,
    tokens: &[Token],
    statement: &Statement,
    state: &State,
) -> Result<Option<Ty>, Stop>
    requires tokens { tokens_of line.now ≡ Some tokens.now }
    requires says { reading_of line.now ≡ Says statement.now }
    ensures { HoldsOf state.now (λ s. ServesLine s line.now result) }
{
    let Statement::Run(expr) = statement else {
        return Ok(None);
    };
    let opened = opening_of(alloc, line, tokens, state)?;
    let tree = tree_of(alloc, expr, opened, state)?;
    let answer = placed_type(alloc, ty(&tree));
    drop(tree);
    Ok(answer?)
}

/// The type that a line is served by, where nothing stops its statement before it is served.
fn type_of_run(alloc: Global, line: &str, state: &State) -> Result<Option<Ty>, Stop>
    ensures { HoldsOf state.now (λ s. ServesLine s line.now result) }
{
    let tokens = tokens_of(alloc, line)?;
    match statement_of(alloc, line, &tokens)? {
        Some(statement) => type_of_statement(alloc, line, &tokens, statement.get(), state),
        None => Ok(None),
    }
}

/// The type that a line is served by in this state: that of the expression of its `run`. None where the
/// line says no `run`, the statement opens more than it may, or its expression has no type, or that of
/// null alone.
pub(crate) fn type_of_line(
    alloc: Global,
    line: &str,
    state: &State,
) -> Result<Option<Ty>, AllocError>
    ensures { IfOk result (λ ty. HoldsOf state.now (λ s. ty ≡ line_type s line.now)) }
{
    match type_of_run(alloc, line, state) {
        Ok(served_type) => Ok(served_type),
        Err(Stop::Answer(_)) => Ok(None),
        Err(Stop::Memory) => Err(AllocError),
    }
}
