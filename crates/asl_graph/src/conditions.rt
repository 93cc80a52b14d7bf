// The condition of a rule in short form.
ghost use Rattle.std.specs.Prelude.{◌≡◌, ◌++◌, ◌∷◌, [], ◌&&◌, ◌||◌, true, false, not, Some, None, MatchOption, OnOk, option_map, string_bytes, codes};
ghost use Rattle.asl_json_data.specs.Data.{chain};
ghost use Rattle.asl_json_data.specs.Compact.{compact};
ghost use Rattle.asl_json.specs.View.{data_of, items_of};
ghost use Rattle.asl_graph.specs.Members.{text_in};
ghost use Rattle.asl_graph.specs.Conditions.{value_sign, path_sign, property, compared, is_word, asked, test, is_many, between, enclosed, rule_part, condition, joined};

use crate::members::{text_at, text_in};
use asl_json::Json;
use asl_json_write::put;
use std::alloc::AllocError;

/// What stands between a variable and a value, by the name of a test.
#[tactic(auto, unfolding(crate::specs::Conditions::value_sign))]
fn value_sign(name: &str) -> Option<&'static str>
    ensures { MatchOption result (value_sign name.now ≡ None) (λ s. value_sign name.now ≡ Some s.now) }
{
    match name {
        "StringEquals" | "NumericEquals" | "TimestampEquals" | "BooleanEquals" => Some(" = "),
        "StringLessThan" | "NumericLessThan" | "TimestampLessThan" => Some(" < "),
        "StringGreaterThan" | "NumericGreaterThan" | "TimestampGreaterThan" => Some(" > "),
        "StringLessThanEquals" | "NumericLessThanEquals" | "TimestampLessThanEquals" => {
            Some(" <= ")
        }
        "StringGreaterThanEquals" | "NumericGreaterThanEquals" | "TimestampGreaterThanEquals" => {
            Some(" >= ")
        }
        "StringMatches" => Some(" matches "),
        _ => None,
    }
}

/// What stands between a variable and a path, by the name of a test.
#[tactic(auto, unfolding(crate::specs::Conditions::path_sign))]
fn path_sign(name: &str) -> Option<&'static str>
    ensures { MatchOption result (path_sign name.now ≡ None) (λ s. path_sign name.now ≡ Some s.now) }
{
    match name {
        "StringEqualsPath" | "NumericEqualsPath" | "TimestampEqualsPath" | "BooleanEqualsPath" => {
            Some(" = ")
        }
        "StringLessThanPath" | "NumericLessThanPath" | "TimestampLessThanPath" => Some(" < "),
        "StringGreaterThanPath" | "NumericGreaterThanPath" | "TimestampGreaterThanPath" => {
            Some(" > ")
        }
        "StringLessThanEqualsPath" | "NumericLessThanEqualsPath" | "TimestampLessThanEqualsPath" =>
            Some(" <= "),
        "StringGreaterThanEqualsPath"
        | "NumericGreaterThanEqualsPath"
        | "TimestampGreaterThanEqualsPath" => Some(" >= "),
        _ => None,
    }
}

/// What a variable is asked to be, by the name of a test.
#[tactic(auto, unfolding(crate::specs::Conditions::property))]
fn property(name: &str) -> Option<&'static str>
    ensures { MatchOption result (property name.now ≡ None) (λ s. property name.now ≡ Some s.now) }
{
    match name {
        "IsNull" => Some("null"),
        "IsPresent" => Some("present"),
        "IsNumeric" => Some("numeric"),
        "IsString" => Some("string"),
        "IsBoolean" => Some("boolean"),
        "IsTimestamp" => Some("timestamp"),
        _ => None,
    }
}

fn put_with_value(
    out: &mut String,
    variable: &str,
    name: &str,
    value: &Json,
) -> Result<(), AllocError>
    ensures { OnOk result (string_bytes out.new ≡ string_bytes out.old
        ++ compared variable.now (value_sign name.now) (compact (data_of value.now))) }
{
    match value_sign(name) {
        Some(sign) => {
            out.push_str(variable)?;
            out.push_str(sign)?;
            put(out, value)
        }
        None => Ok(()),
    }
}

fn put_with_path(out: &mut String, variable: &str, name: &str, path: &str) -> Result<(), AllocError>
    ensures { OnOk result (string_bytes out.new ≡ string_bytes out.old
        ++ compared variable.now (path_sign name.now) path.now) }
{
    match path_sign(name) {
        Some(sign) => {
            out.push_str(variable)?;
            out.push_str(sign)?;
            out.push_str(path)
        }
        None => Ok(()),
    }
}

fn is_word(value: &Json) -> &'static str
    ensures { result.now ≡ is_word (data_of value.now) }
{
    match value {
        Json::Bool(false) => " is not ",
        _ => " is ",
    }
}

fn put_asked(out: &mut String, variable: &str, name: &str, value: &Json) -> Result<(), AllocError>
    ensures { OnOk result (string_bytes out.new ≡ string_bytes out.old
        ++ asked variable.now (data_of value.now) (property name.now)) }
{
    match property(name) {
        Some(word) => {
            out.push_str(variable)?;
            out.push_str(is_word(value))?;
            out.push_str(word)
        }
        None => Ok(()),
    }
}

/// Appends the test of this name; nothing for any other name.
fn put_test(out: &mut String, variable: &str, name: &str, value: &Json) -> Result<(), AllocError>
    ensures { OnOk result (string_bytes out.new
        ≡ string_bytes out.old ++ test variable.now name.now (data_of value.now)) }
{
    put_with_value(out, variable, name, value)?;
    put_with_path(out, variable, name, text_in(Some(value)))?;
    put_asked(out, variable, name, value)
}

/// Whether a value is a list of more than one.
fn is_many(value: &Json) -> bool
    ensures { result ≡ is_many (data_of value.now) }
{
    matches!(value.items(), [_, _, ..])
}

/// Appends what stands before the rule with this number in a list of rules.
fn put_between(out: &mut String, sign: &str, number: usize) -> Result<(), AllocError>
    ensures { OnOk result (string_bytes out.new
        ≡ string_bytes out.old ++ between sign.now number) }
{
    if number > 0 {
        out.push_str(sign)?;
    }
    Ok(())
}

/// Appends the condition of a rule. It may stand beside others of one `And`: then an `Or` of more than one stands in parentheses. The error
/// is that memory ran out.
#[cycle(condition)]
pub(crate) fn put_condition(out: &mut String, beside: bool, rule: &Json) -> Result<(), AllocError>
    ensures { OnOk result (string_bytes out.new
        ≡ string_bytes out.old ++ condition beside (data_of rule.now)) }
{
    let variable = text_at(rule, "Variable");
    for member in rule.members() {
        put_rule_part(out, beside, variable, member.key.as_str(), &member.value)?;
    }
    Ok(())
}

#[cycle(condition)]
fn put_rule_part(
    out: &mut String,
    beside: bool,
    variable: &str,
    key: &str,
    value: &Json,
) -> Result<(), AllocError>
    ensures { OnOk result (string_bytes out.new ≡ string_bytes out.old
        ++ rule_part beside variable.now key.now (data_of value.now)
        (joined (beside || is_many (data_of value.now)) (codes " and ") (data_of value.now))
        (joined (beside && not (is_many (data_of value.now))) (codes " or ") (data_of value.now))
        (condition false (data_of value.now))) }
{
    match key {
        "And" => put_joined(out, beside || is_many(value), " and ", value),
        "Or" => put_any(out, beside, value),
        "Not" => put_not(out, value),
        _ => put_test(out, variable, key, value),
    }
}

#[cycle(condition)]
fn put_any(out: &mut String, beside: bool, rules: &Json) -> Result<(), AllocError>
    ensures { OnOk result (string_bytes out.new ≡ string_bytes out.old
        ++ enclosed (beside && is_many (data_of rules.now))
        (joined (beside && not (is_many (data_of rules.now))) (codes " or ") (data_of rules.now))) }
{
    if beside && is_many(rules) {
        out.push('(')?;
        put_joined(out, false, " or ", rules)?;
        out.push(')')
    } else {
        put_joined(out, beside, " or ", rules)
    }
}

#[cycle(condition)]
fn put_not(out: &mut String, rule: &Json) -> Result<(), AllocError>
    ensures { OnOk result (string_bytes out.new ≡ string_bytes out.old
        ++ codes "not (" ++ (condition false (data_of rule.now) ++ 41 ∷ [])) }
{
    out.push_str("not (")?;
    put_condition(out, false, rule)?;
    out.push(')')
}

/// Appends the conditions of the rules of a list, with this between them.
#[cycle(condition)]
fn put_joined(out: &mut String, beside: bool, sign: &str, rules: &Json) -> Result<(), AllocError>
    ensures { OnOk result (string_bytes out.new
        ≡ string_bytes out.old ++ joined beside sign.now (data_of rules.now)) }
{
    for (number, rule) in rules.items().iter().enumerate() {
        put_between(out, sign, number)?;
        put_condition(out, beside, rule)?;
    }
    Ok(())
}
