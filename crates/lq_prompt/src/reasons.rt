//! Why a row is seen or hidden, as people read it.
ghost use Rattle.std.specs.Prelude.{◌≡◌, ◌++◌, IfOk, map, string_bytes};
ghost use Rattle.lq_prompt.specs.Questions.{asked_in};
ghost use Rattle.lq_prompt.specs.Reasons.{condition_text, explained, kind_text, may_text, no_table_text, policies_text, policy_row, secret_text, truth_text, verb, verdict, why_text};

use crate::grids::{joined, number_text, row, table_text, word};
use crate::question::Question;
use lq_audit::Why;
use lq_policy::{Action, ExplainedPolicy, Explanation};
use lq_render::{Cell, escaped_text};
use lq_value::List;
use std::alloc::{AllocError, Global};

/// The word for an action.
fn verb<'a>(action: Action) -> &'a str
    ensures { result.now ≡ verb action }
{
    match action {
        Action::Select => "see",
        Action::Insert => "insert",
        Action::Delete => "delete",
    }
}

/// The word for a kind of policy.
fn kind_text(is_restrictive: bool) -> &'static str
    ensures { result.now ≡ kind_text is_restrictive }
{
    if is_restrictive {
        "restrictive"
    } else {
        "permissive"
    }
}

/// Whether a policy is true.
fn truth_text(is_true: bool) -> &'static str
    ensures { result.now ≡ truth_text is_true }
{
    if is_true { "yes" } else { "no" }
}

/// Whether a role may do something.
fn may_text<'a>(is_allowed: bool) -> &'a str
    ensures { result.now ≡ may_text is_allowed }
{
    if is_allowed { " may " } else { " may not " }
}

/// The row of a policy.
fn policy_row(alloc: Global, policy: &ExplainedPolicy) -> Result<List<Cell>, AllocError>
    ensures { IfOk result (λ cells. cells ≡ policy_row policy.now) }
{
    let name = word(alloc, policy.name.as_str())?;
    let kind = word(alloc, kind_text(policy.is_restrictive))?;
    row(
        alloc,
        [name, kind, word(alloc, truth_text(policy.is_true))?],
    )
}

/// The rows of policies.
fn policy_rows(alloc: Global, policies: &[ExplainedPolicy]) -> Result<List<List<Cell>>, AllocError>
    ensures { IfOk result (λ grid. grid ≡ map policy_row policies.now) }
{
    let mut grid = List::new(alloc);
    for policy in policies {
        grid.push(policy_row(alloc, policy)?)?;
    }
    Ok(grid)
}

/// The policies that apply, as a table.
fn policies_text(alloc: Global, policies: &[ExplainedPolicy]) -> Result<String, AllocError>
    ensures { IfOk result (λ text. string_bytes text ≡ policies_text policies.now) }
{
    if policies.is_empty() {
        return String::from_str(alloc, "No policy applies.\n");
    }
    let grid = policy_rows(alloc, policies)?;
    table_text(alloc, &["policy", "kind", "true"], &grid)
}

/// The sentence that says whether the role may do this with the row, and why.
fn verdict(
    alloc: Global,
    question: Question<'_>,
    is_allowed: bool,
    reason: &str,
) -> Result<String, AllocError>
    ensures { IfOk result (λ text. string_bytes text
        ≡ verdict (asked_in question.entry) is_allowed reason.now) }
{
    let number = number_text(alloc, question.number)?;
    let (may, verb) = (may_text(is_allowed), verb(question.action));
    let (role, table) = (question.role, question.table);
    joined(
        alloc,
        &[
            "By the policies, ",
            role,
            may,
            verb,
            " row ",
            &number,
            " of ",
            table,
            ": ",
            reason,
            ".\n",
        ],
    )
}

/// What the policies ask of a row. Whoever deletes one has to be able to read it, too.
fn condition_text<'a>(action: Action) -> &'a str
    ensures { result.now ≡ condition_text action }
{
    match action {
        Action::Delete => {
            "at least one permissive policy for reading and one for deleting must be true of it, and every restrictive one"
        }
        Action::Select | Action::Insert => {
            "at least one permissive policy must be true of it, and every restrictive one"
        }
    }
}

/// The decision of the policies, and those that apply.
fn decided(
    alloc: Global,
    question: Question<'_>,
    is_allowed: bool,
    policies: &[ExplainedPolicy],
) -> Result<String, AllocError>
    ensures { IfOk result (λ text. string_bytes text
        ≡ verdict (asked_in question.entry) is_allowed (condition_text question.entry.action)
        ++ policies_text policies.now) }
{
    let condition = condition_text(question.action);
    let mut text = verdict(alloc, question, is_allowed, condition)?;
    text.push_str(&policies_text(alloc, policies)?)?;
    Ok(text)
}

/// What an explanation says.
fn explained(
    alloc: Global,
    question: Question<'_>,
    explanation: &Explanation,
) -> Result<String, AllocError>
    ensures { IfOk result (λ text. string_bytes text
        ≡ explained (asked_in question.entry) explanation.now) }
{
    match explanation {
        Explanation::NoTable => verdict(alloc, question, false, "they don't know the table"),
        Explanation::NoRole => verdict(alloc, question, false, "they don't know the role"),
        Explanation::RowSecurityOff => {
            verdict(alloc, question, true, "the table has no row security")
        }
        Explanation::Bypass => verdict(alloc, question, true, "the role bypasses row security"),
        Explanation::Policies {
            policies,
            is_allowed,
            refused_by: _,
        } => decided(alloc, question, *is_allowed, policies.as_slice()),
    }
}

/// What is answered to a question about a row of which nothing may be disclosed.
fn secret_text(alloc: Global, question: Question<'_>) -> Result<String, AllocError>
    ensures { IfOk result (λ text. string_bytes text ≡ secret_text (asked_in question.entry)) }
{
    let number = number_text(alloc, question.number)?;
    let (role, table) = (question.role, question.table);
    let whether = ". Whether there is one is explained only";
    let where_it_is = " at a desk that begins as a role that bypasses row security.\n";
    joined(
        alloc,
        &[
            role,
            " sees no row ",
            &number,
            " of ",
            table,
            whether,
            where_it_is,
        ],
    )
}

/// What is answered to a question about a row.
pub(crate) fn why_text(
    alloc: Global,
    question: Question<'_>,
    why: &Why,
) -> Result<String, AllocError>
    ensures { IfOk result (λ text. string_bytes text ≡ why_text (asked_in question.entry) why.now) }
{
    match why {
        Why::Explained(explanation) => explained(alloc, question, explanation),
        Why::Secret => secret_text(alloc, question),
    }
}

/// What is answered where there is no table of the name, whose control characters are escaped.
pub(crate) fn no_table_text(alloc: Global, table: &str) -> Result<String, AllocError>
    ensures { IfOk result (λ text. string_bytes text ≡ no_table_text table.now) }
{
    let table = escaped_text(alloc, table)?;
    joined(
        alloc,
        &[
            "There is no table ",
            table.as_str(),
            "; .tables lists the tables.\n",
        ],
    )
}
