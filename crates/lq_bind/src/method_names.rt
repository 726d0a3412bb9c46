//! Methods by their names (.NET, `Enumerable` and `String`).
ghost use Rattle.std.specs.Prelude.{◌≡◌};
ghost use Rattle.lq_language.specs.EnumerableCalls.{by_name, method_with_lambda};
ghost use Rattle.lq_language.specs.EnumerableCalls.{method_with_value, simple_method};
ghost use Rattle.lq_language.specs.Members.{search_named};
ghost use Rattle.lq_bind.specs.MethodNames.{names_with_lambdas, names_with_values, simple_names};

use lq_language::{Given, Op, Simple, Through};

/// The method of this name in the list of those without an argument.
fn simple_by_name(name: &str) -> Option<Simple>
    ensures { result ≡ by_name name.now simple_names }
{
    match name {
        "Distinct" => Some(Simple::Distinct),
        "Reverse" => Some(Simple::Reverse),
        "DefaultIfEmpty" => Some(Simple::DefaultIfEmpty),
        "Any" => Some(Simple::Any),
        "Count" => Some(Simple::Count),
        "First" => Some(Simple::First),
        "FirstOrDefault" => Some(Simple::FirstOrDefault),
        "Last" => Some(Simple::Last),
        "Single" => Some(Simple::Single),
        "SingleOrDefault" => Some(Simple::SingleOrDefault),
        "Sum" => Some(Simple::Sum),
        "Min" => Some(Simple::Min),
        "Max" => Some(Simple::Max),
        _ => None,
    }
}

/// The method of this name in the list of those with a value.
fn with_value_by_name(name: &str) -> Option<Given>
    ensures { result ≡ by_name name.now names_with_values }
{
    match name {
        "Concat" => Some(Given::Concat),
        "Union" => Some(Given::Union),
        "Intersect" => Some(Given::Intersect),
        "Except" => Some(Given::Except),
        "Skip" => Some(Given::Skip),
        "Take" => Some(Given::Take),
        "ElementAt" => Some(Given::ElementAt),
        "Contains" => Some(Given::Contains),
        _ => None,
    }
}

/// The method of this name in the list of those with a lambda.
fn with_lambda_by_name(name: &str) -> Option<Through>
    ensures { result ≡ by_name name.now names_with_lambdas }
{
    match name {
        "Where" => Some(Through::Where),
        "Select" => Some(Through::Select),
        "All" => Some(Through::All),
        "Any" => Some(Through::Those(Simple::Any)),
        "Count" => Some(Through::Those(Simple::Count)),
        "First" => Some(Through::Those(Simple::First)),
        "FirstOrDefault" => Some(Through::Those(Simple::FirstOrDefault)),
        "Last" => Some(Through::Those(Simple::Last)),
        "Single" => Some(Through::Those(Simple::Single)),
        "SingleOrDefault" => Some(Through::Those(Simple::SingleOrDefault)),
        "Sum" => Some(Through::Values(Simple::Sum)),
        "Min" => Some(Through::Values(Simple::Min)),
        "Max" => Some(Through::Values(Simple::Max)),
        _ => None,
    }
}

/// The method of this name without an argument.
#[tactic(auto, using(crate::proofs::MethodLemmas::simple_methods))]
pub(crate) fn simple_method(name: &str) -> Option<Simple>
    ensures { result ≡ simple_method name.now }
{
    simple_by_name(name)
}

/// The method of this name with a value.
#[tactic(auto, using(crate::proofs::MethodLemmas::methods_with_values))]
pub(crate) fn method_with_value(name: &str) -> Option<Given>
    ensures { result ≡ method_with_value name.now }
{
    with_value_by_name(name)
}

/// The method of this name with a lambda.
#[tactic(auto, using(crate::proofs::MethodLemmas::methods_with_lambdas))]
pub(crate) fn method_with_lambda(name: &str) -> Option<Through>
    ensures { result ≡ method_with_lambda name.now }
{
    with_lambda_by_name(name)
}

/// The method of this name that looks for one text in another.
pub(crate) fn search_named(name: &str) -> Option<Op>
    ensures { result ≡ search_named name.now }
{
    if name == "StartsWith" {
        return Some(Op::StartsWith);
    }
    if name == "EndsWith" {
        return Some(Op::EndsWith);
    }
    if name == "Contains" {
        return Some(Op::Contains);
    }
    None
}
