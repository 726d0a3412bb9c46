//! The binding of terms (ECMA-334, expressions).
use crate::error::TermError;
use crate::frames::Frame;
use crate::operations::Infix;
use crate::{hosts, members, names, operations};
use lq_grammar::{Argument, Node, Picked, Unary};
use lq_language::{HostName, Term};
use lq_machine::Definition;
use lq_store::Store;
use lq_tree::Tree;
use lq_value::List;
use std::alloc::Global;

/// What terms are bound in: the tables, the host predicates and the names of the session that are
/// known, and what gives memory.
#[derive(Clone, Copy)]
pub(crate) struct Binder<'a> {
    pub(crate) alloc: Global,
    pub(crate) store: &'a Store,
    /// The host predicates, by number.
    pub(crate) hosts: &'a [HostName],
    /// The names of the session, the oldest first.
    pub(crate) definitions: &'a [Definition],
}

impl Binder<'_> {
    ghost use Rattle.std.specs.Prelude.{option_and_then};
    ghost use Rattle.lq_grammar.specs.declared.syntax.Node.TheVariants as expression;
    ghost use Rattle.lq_tree.specs.Binding.{conditional_tree, of_two_trees};
    ghost use Rattle.lq_bind.specs.Bound.{node_at, tree_at};
    ghost use Rattle.lq_bind.specs.Operators.{operation_tree};
    ghost use Rattle.lq_bind.specs.Outcomes.{Gives};

    /// The tree of a term, where it has one.
    #[cycle(binding)]
    #[tactic(auto, using(crate::proofs::TermLaws::terms))]
    pub(crate) fn term(&self, term: &Term, frame: &Frame<'_>) -> Result<Tree, TermError>
        ensures { Gives (tree_at self.now frame.now term.now) result }
    {
        match term {
            Term::Node(node) => self.node(node, frame),
            Term::Call(call) => self.call(call.get(), frame),
        }
    }

    /// The tree of an expression other than a query. Each form that holds expressions has a
    /// function of its own, which takes less of the stack than all forms together: expressions may
    /// be many thousand operators deep on their left.
    #[cycle(binding)]
    fn node(&self, node: &Node<Term>, frame: &Frame<'_>) -> Result<Tree, TermError>
        ensures { Gives (node_at self.now frame.now node.now) result }
    {
        match node {
            Node::Integer(number) => names::integer(self.alloc, *number),
            Node::Text(text) => names::text(self.alloc, text),
            Node::Bool(truth) => names::truth(self.alloc, *truth),
            Node::Null => names::null(self.alloc),
            Node::Name(name) => self.name(name.as_str(), frame),
            Node::Member(receiver, name) => self.member(receiver.get(), name.as_str(), frame),
            Node::Unary(sign, operand) => self.unary(operand.get(), *sign, frame),
            Node::Binary(sign, left, right) => {
                self.operation(left.get(), right.get(), Infix::Sign(*sign), frame)
            }
            Node::And(left, right) => self.operation(left.get(), right.get(), Infix::And, frame),
            Node::Or(left, right) => self.operation(left.get(), right.get(), Infix::Or, frame),
            Node::Coalesce(left, right) => {
                self.operation(left.get(), right.get(), Infix::Coalesce, frame)
            }
            Node::Conditional(condition, left, right) => {
                self.conditional(condition.get(), left.get(), right.get(), frame)
            }
            Node::Host(predicate, row, columns) => {
                self.host(row.get(), predicate.as_str(), columns.get(), frame)
            }
            Node::HostOther(_, _) => Err(TermError::IllTyped),
            Node::New(fields) => self.new_record(fields, frame),
            Node::Method(receiver, name, arguments) => {
                self.method_of(arguments, name.as_str(), receiver.get(), frame)
            }
        }
    }

    /// A member.
    #[cycle(binding)]
    #[inline(never)]
    fn member(&self, receiver: &Term, name: &str, frame: &Frame<'_>) -> Result<Tree, TermError>
        ensures { Gives (node_at self.now frame.now (expression.Member receiver.now name.now))
            result }
    {
        let receiver = self.term(receiver, frame)?;
        members::member(self.alloc, self.store, name, receiver)
    }

    /// A host predicate, which is asked of columns of a row.
    #[cycle(binding)]
    #[inline(never)]
    fn host(
        &self,
        row: &Term,
        predicate: &str,
        columns: &Picked,
        frame: &Frame<'_>,
    ) -> Result<Tree, TermError>
        ensures { Gives (node_at self.now frame.now
            (expression.Host predicate.now row.now columns.now)) result }
    {
        let row = self.term(row, frame)?;
        hosts::host_call(self.alloc, self.store, self.hosts, predicate, columns, row)
    }

    /// An operator with one operand.
    #[cycle(binding)]
    #[inline(never)]
    fn unary(&self, operand: &Term, sign: Unary, frame: &Frame<'_>) -> Result<Tree, TermError>
        ensures { Gives (node_at self.now frame.now (expression.Unary sign operand.now)) result }
    {
        let operand = self.term(operand, frame)?;
        operations::unary(self.alloc, sign, operand)
    }

    /// An operator with two operands.
    #[cycle(binding)]
    #[inline(never)]
    fn operation(
        &self,
        left: &Term,
        right: &Term,
        op: Infix,
        frame: &Frame<'_>,
    ) -> Result<Tree, TermError>
        ensures { Gives (of_two_trees (operation_tree op)
            (tree_at self.now frame.now left.now) (tree_at self.now frame.now right.now)) result }
    {
        let left = self.term(left, frame)?;
        self.operation_beside(right, op, left, frame)
    }

    /// The same where the first operand has this tree.
    #[cycle(binding)]
    #[inline(never)]
    fn operation_beside(
        &self,
        right: &Term,
        op: Infix,
        left: Tree,
        frame: &Frame<'_>,
    ) -> Result<Tree, TermError>
        ensures { Gives (option_and_then (operation_tree op left)
            (tree_at self.now frame.now right.now)) result }
    {
        let right = self.term(right, frame)?;
        operations::operation(self.alloc, op, left, right)
    }

    /// `? :`
    #[cycle(binding)]
    #[inline(never)]
    fn conditional(
        &self,
        condition: &Term,
        left: &Term,
        right: &Term,
        frame: &Frame<'_>,
    ) -> Result<Tree, TermError>
        ensures { Gives (node_at self.now frame.now
            (expression.Conditional condition.now left.now right.now)) result }
    {
        let condition = self.term(condition, frame)?;
        self.choice(left, right, condition, frame)
    }

    /// The same where the condition has this tree.
    #[cycle(binding)]
    #[inline(never)]
    fn choice(
        &self,
        left: &Term,
        right: &Term,
        condition: Tree,
        frame: &Frame<'_>,
    ) -> Result<Tree, TermError>
        ensures { Gives (of_two_trees (conditional_tree condition)
            (tree_at self.now frame.now left.now) (tree_at self.now frame.now right.now)) result }
    {
        let left = self.term(left, frame)?;
        self.choice_beside(right, condition, left, frame)
    }

    /// The same where the first operand has this tree too.
    #[cycle(binding)]
    #[inline(never)]
    fn choice_beside(
        &self,
        right: &Term,
        condition: Tree,
        left: Tree,
        frame: &Frame<'_>,
    ) -> Result<Tree, TermError>
        ensures { Gives (option_and_then (conditional_tree condition left)
            (tree_at self.now frame.now right.now)) result }
    {
        let right = self.term(right, frame)?;
        operations::conditional(self.alloc, condition, left, right)
    }

    /// A method.
    #[cycle(binding)]
    #[inline(never)]
    fn method_of(
        &self,
        arguments: &List<Argument<Term>>,
        name: &str,
        receiver: &Term,
        frame: &Frame<'_>,
    ) -> Result<Tree, TermError>
        ensures { Gives (node_at self.now frame.now
            (expression.Method receiver.now name.now arguments.now)) result }
    {
        let receiver = self.term(receiver, frame)?;
        self.method(arguments.as_slice(), name, receiver, frame)
    }
}
