//! Which rules are reported to be total, form by form.
use lq_scalar::is_total;
use lq_syntax::{SyntaxError, parse_rule};
use std::alloc::Global;
use std::test::Fail;

/// Rules, each with whether it is total.
const RULES: [(&str, bool); 92] = [
    // Literals, and a minus sign before one.
    ("7", true),
    ("\"Ada\"", true),
    ("true", true),
    ("null", true),
    ("-7", true),
    ("-0", true),
    ("-2147483647", true),
    ("-2147483648", true),
    ("-(7)", true),
    ("-(-2147483648)", false),
    ("-(-7)", false),
    ("-row.c", false),
    ("-null", false),
    // Names and members.
    ("user", true),
    ("row.c", true),
    ("(row).c", true),
    ("row", false),
    ("t", false),
    ("user.c", false),
    ("t.c", false),
    ("row.c.d", false),
    ("row.HasValue", true),
    ("row.c.HasValue", true),
    ("(row.c + 1).HasValue", false),
    ("t.c.HasValue", false),
    ("row.c.Value", false),
    ("row.name.Length", false),
    ("user.Length", false),
    // Operators of truth values.
    ("!row.c", true),
    ("!t", false),
    ("row.a && row.b", true),
    ("t && row.b", false),
    ("row.a && t", false),
    ("row.a || row.b", true),
    ("t || row.b", false),
    ("row.a || t", false),
    // Comparisons.
    ("row.c < 1", true),
    ("row.c > 1", true),
    ("row.c <= 1", true),
    ("row.c >= 1", true),
    ("row.c == user", true),
    ("user != null", true),
    ("t < 1", false),
    ("1 < t", false),
    ("row.c == row.d + 1", false),
    ("row == null", false),
    // Choices.
    ("row.c ? row.a : row.b", true),
    ("t ? row.a : row.b", false),
    ("row.c ? t : row.b", false),
    ("row.c ? row.a : t", false),
    ("row.c ?? 0", true),
    ("row.c ?? (row.d ?? (row.e ?? 0))", true),
    ("t ?? 0", false),
    ("row.c ?? t", false),
    // Division by a literal above 0, and other arithmetic.
    ("row.c / 2", true),
    ("row.c % 2 == 0", true),
    ("2 / 2147483647", true),
    ("-2147483648 / 1", true),
    ("row.c / 0", false),
    ("row.c % 0", false),
    ("row.c / -2", false),
    ("row.c % -1", false),
    ("row.c / -2147483648", false),
    ("row.c / row.d", false),
    ("row.c / null", false),
    ("(row.c + 1) / 2", false),
    ("row.c + 1", false),
    ("row.c - 1", false),
    ("row.c * 2", false),
    ("\"a\" + \"b\"", false),
    // Methods that look for a text in another.
    ("user.StartsWith(\"a\")", true),
    ("\"Ada\".EndsWith(user)", true),
    ("user.Contains(user)", true),
    ("(row.name ?? \"\").StartsWith(user)", true),
    ("user.StartsWith(row.name ?? user)", true),
    ("user.StartsWith(row.name ?? (row.boss ?? \"\"))", true),
    ("(row.c ? \"a\" : user).Contains(\"a\")", true),
    ("row.name.StartsWith(\"a\")", false),
    ("user.StartsWith(row.name)", false),
    ("user.Contains(null)", false),
    ("(row.name ?? row.name).StartsWith(\"a\")", false),
    ("(t ?? \"a\").StartsWith(\"a\")", false),
    ("(t ? \"a\" : user).Contains(\"a\")", false),
    ("(row.c ? row.name : user).Contains(\"a\")", false),
    ("(row.c ? user : row.name).Contains(\"a\")", false),
    ("(user.Contains(user)).Contains(user)", false),
    ("user.Contains()", false),
    ("user.Contains(user, user)", false),
    ("user.Contains(x => user)", false),
    ("user.IndexOf(user)", false),
    // What else there is.
    ("new { row.c } == null", false),
    ("Host.p(row.c)", false),
];

// A function of its own: what costs most to prove of a test is that it frees a tree.
fn is_told_total(alloc: Global, text: &str) -> Result<bool, SyntaxError> {
    Ok(is_total(&parse_rule(alloc, text)?))
}

#[test]
fn rules_are_total_by_their_form(rt: HostRuntime) -> Result<(), Fail> {
    for (text, expected) in &RULES {
        assert!(rt; is_told_total(rt.alloc(), text)? == *expected, "{text}");
    }
    Ok(())
}
