// Whether rules hold.
ghost use Rattle.std.specs.Prelude.{◌≡◌, false, codes};
ghost use Rattle.asl_json_data.specs.Results.{◌>>=◌ as and_then};
ghost use Rattle.asl_json.specs.View.{data_of};
ghost use Rattle.asl_json_data.specs.Distinct.{has_key};
ghost use Rattle.asl_choice.specs.Rules.{comparison_operator, operand, rule_object, condition_named, rule_list};
ghost use Rattle.asl_choice.specs.Truth.{operand_value, judged, test, holds, each, any};
ghost use Rattle.asl_choice.specs.Seen.{seen};

use crate::comparison::{Comparison, Test};
use crate::fault::RuleFault;
use crate::judging::{
    are_equal, matched, moment_of, moments, numbers, text_of, texts, truth_of, units_of,
};
use crate::lookup::{found, part};
use crate::operator::Property;
use crate::rule::{Condition, Rule};
use asl_json::Json;

impl Comparison {
    /// Whether a value that was found passes.
    fn is_met<'a>(
        &'a self,
        value: &Json,
        input: &Json,
        context: &Json,
    ) -> Result<bool, RuleFault<'a>>
        ensures { seen (λ b. b) result
            ≡ and_then (operand_value (comparison_operator self.now) (operand self.now)
            (data_of input.now) (data_of context.now))
            (λ w. judged (comparison_operator self.now) (data_of value.now) w) }
    {
        match self {
            Comparison::String(order, text) => {
                Ok(order.is_so(texts(text_of(value), Some(text.as_str()))))
            }
            Comparison::StringPath(order, path) => {
                let other = found(path, input, context)?;
                Ok(order.is_so(texts(text_of(value), text_of(other))))
            }
            Comparison::Numeric(order, number) => {
                Ok(order.is_so(numbers(units_of(value), Some(number.units()))))
            }
            Comparison::NumericPath(order, path) => {
                let other = found(path, input, context)?;
                Ok(order.is_so(numbers(units_of(value), units_of(other))))
            }
            Comparison::Timestamp(order, stamp) => {
                Ok(order.is_so(moments(moment_of(value), Some(stamp.moment()))))
            }
            Comparison::TimestampPath(order, path) => {
                let other = found(path, input, context)?;
                Ok(order.is_so(moments(moment_of(value), moment_of(other))))
            }
            Comparison::Boolean(truth) => Ok(are_equal(truth_of(value), Some(*truth))),
            Comparison::BooleanPath(path) => {
                let other = found(path, input, context)?;
                Ok(are_equal(truth_of(value), truth_of(other)))
            }
            Comparison::Matches(pattern) => matched(text_of(value), Some(pattern.as_str())),
            Comparison::Is(property, truth) => Ok(property.is_of(value) == *truth),
        }
    }
}

impl Test {
    fn holds<'a>(&'a self, input: &Json, context: &Json) -> Result<bool, RuleFault<'a>>
        ensures { seen (λ b. b) result
            ≡ test (comparison_operator self.now.comparison) self.now.variable
            (operand self.now.comparison) (data_of input.now) (data_of context.now) }
    {
        if let Comparison::Is(Property::Present, truth) = &self.comparison {
            return Ok(part(&self.variable, input, context).is_some() == *truth);
        }
        let value = found(&self.variable, input, context)?;
        self.comparison.is_met(value, input, context)
    }
}

impl Condition {
    #[cycle(holds)]
    fn holds<'a>(&'a self, input: &Json, context: &Json) -> Result<bool, RuleFault<'a>>
        ensures { seen (λ b. b) result
            ≡ holds (rule_object (condition_named self.now)) (data_of input.now)
            (data_of context.now) }
    {
        match self {
            Condition::And(rules) => each_holds(rules, input, context),
            Condition::Or(rules) => any_holds(rules, input, context),
            Condition::Not(rule) => Ok(!rule.holds(input, context)?),
            Condition::Test(test) => test.holds(input, context),
        }
    }
}

/// Whether each of these rules holds, from the left as far as the first that doesn't.
#[cycle(holds)]
fn each_holds<'a>(rules: &'a Vec<Rule>, input: &Json, context: &Json) -> Result<bool, RuleFault<'a>>
    ensures { seen (λ b. b) result
        ≡ each (rule_list rules.now.items) (data_of input.now) (data_of context.now) }
{
    for rule in rules {
        if !rule.holds(input, context)? {
            return Ok(false);
        }
    }
    Ok(true)
}

/// Whether some of these rules holds, from the left as far as the first that does.
#[cycle(holds)]
fn any_holds<'a>(
    alternatives: &'a Vec<Rule>,
    input: &Json,
    context: &Json,
) -> Result<bool, RuleFault<'a>>
    ensures { seen (λ b. b) result
        ≡ any (rule_list alternatives.now.items) (data_of input.now) (data_of context.now) }
{
    for rule in alternatives {
        if rule.holds(input, context)? {
            return Ok(true);
        }
    }
    Ok(false)
}

impl Rule {
    /// Whether the rule holds on an input and a Context Object.
    ///
    /// The variable's path and then that of the operand are looked up before any type is judged, and a path that names nothing
    /// is a fault; only `IsPresent` has an answer then. A value of an unfit type passes no comparison. `And` and `Or` go from
    /// the left and stop once they are decided, so that a fault behind that isn't seen. Takes no memory.
    #[cycle(holds)]
    pub fn holds<'a>(&'a self, input: &Json, context: &Json) -> Result<bool, RuleFault<'a>>
        ensures truth { seen (λ b. b) result
            ≡ holds (rule_object self.now) (data_of input.now) (data_of context.now) }
        // What the rule shows has no `Next`.
        ensures no_next { has_key (codes "Next") self.now ≡ false }
    {
        self.condition.holds(input, context)
    }
}
