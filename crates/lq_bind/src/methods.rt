//! The binding of methods (.NET, `Enumerable` and `String`).
use crate::binder::Binder;
use crate::error::TermError;
use crate::frames::Frame;
use crate::method_names::{method_with_lambda, method_with_value, search_named, simple_method};
use crate::{method_trees, operations, type_checks};
use lq_grammar::Argument;
use lq_language::{Term, Through};
use lq_tree::Tree;
use lq_typing::is_text;
use lq_value::Txt;

impl Binder<'_> {
    ghost use Rattle.std.specs.Prelude.{option_and_then};
    ghost use Rattle.lq_language.specs.EnumerableCalls.{By, enumerable_call};
    ghost use Rattle.lq_bind.specs.Bound.{enumerable_at, method_at, search_at};
    ghost use Rattle.lq_bind.specs.Outcomes.{Gives};

    /// A method of this name of what the receiver means.
    #[cycle(binding)]
    #[inline(never)]
    pub(crate) fn method(
        &self,
        arguments: &[Argument<Term>],
        name: &str,
        receiver: Tree,
        frame: &Frame<'_>,
    ) -> Result<Tree, TermError>
        ensures { Gives (method_at self.now frame.now name.now arguments.now receiver) result }
    {
        if is_text(&receiver.ty) {
            return self.search(arguments, name, receiver, frame);
        }
        let items = type_checks::items(receiver)?;
        let tree = self.items_method(arguments, name, items, frame)?;
        let tree = type_checks::within_limit(tree)?;
        type_checks::settle(self.alloc, tree)
    }

    /// A search for one text in another.
    #[cycle(binding)]
    fn search(
        &self,
        arguments: &[Argument<Term>],
        name: &str,
        text: Tree,
        frame: &Frame<'_>,
    ) -> Result<Tree, TermError>
        ensures { Gives (search_at self.now frame.now name.now arguments.now text) result }
    {
        let op = search_named(name).ok_or(TermError::IllTyped)?;
        match arguments {
            [Argument::Value(needle)] => {
                let needle = self.term(needle, frame)?;
                operations::search(self.alloc, op, text, needle)
            }
            _ => Err(TermError::IllTyped),
        }
    }

    /// A method on items.
    #[cycle(binding)]
    fn items_method(
        &self,
        arguments: &[Argument<Term>],
        name: &str,
        items: Tree,
        frame: &Frame<'_>,
    ) -> Result<Tree, TermError>
        ensures { Gives (option_and_then (enumerable_at self.now frame.now items)
            (enumerable_call name.now arguments.now)) result }
    {
        match arguments {
            [] => {
                let method = simple_method(name).ok_or(TermError::IllTyped)?;
                method_trees::plain(self.alloc, method, items)
            }
            [Argument::Value(argument)] => {
                let method = method_with_value(name).ok_or(TermError::IllTyped)?;
                let argument = self.term(argument, frame)?;
                method_trees::with_value(self.alloc, method, items, argument)
            }
            [Argument::Lambda(parameter, body)] => {
                let method = method_with_lambda(name).ok_or(TermError::IllTyped)?;
                self.lambda_method(body, parameter, method, items, frame)
            }
            _ => Err(TermError::IllTyped),
        }
    }

    /// A method with a lambda, whose parameter stands for an item and repeats no local name.
    #[cycle(binding)]
    fn lambda_method(
        &self,
        body: &Term,
        parameter: &Txt,
        method: Through,
        items: Tree,
        frame: &Frame<'_>,
    ) -> Result<Tree, TermError>
        ensures { Gives (enumerable_at self.now frame.now items
            (By method parameter.now body.now)) result }
    {
        if !frame.is_fresh(parameter.as_str()) {
            return Err(TermError::IllTyped);
        }
        let inner = (&*frame).with_name(&*parameter, &items.ty);
        let body = self.term(body, &inner)?;
        method_trees::with_lambda(self.alloc, method, items, body)
    }
}
