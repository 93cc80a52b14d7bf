// Choice states.
ghost use Rattle.std.specs.Prelude.{◌≡◌, IfOk, Some, codes, option_map};
ghost use Rattle.asl_json_data.specs.Data.{list, dict, chain, pairs, text};
ghost use Rattle.asl_json.specs.View.{data_of};
ghost use Rattle.asl_def_schema.specs.declared.sort.Sort.TheVariants.{State as state_sort, Rule as rule_sort, Rules as rules_sort};
ghost use Rattle.asl_def_schema.specs.declared.sort.Kind.TheVariants.{Choice as choice_kind};
ghost use Rattle.asl_def_schema.specs.Canon.{canon};
ghost use Rattle.asl_def_schema.specs.Clean.{IsClean};
ghost use Rattle.asl_def_shared.specs.Built.{IsOfKind};
ghost use Rattle.asl_def_states.specs.Show.{choice_rule_object, choice_rule_objects};
ghost use Rattle.asl_def_states.specs.Show.{choice_object};
ghost use Rattle.asl_json.specs.Meaning.{value_in};
ghost use Rattle.asl_def_fields.specs.Shown.{path_shown};
ghost use Rattle.asl_choice.specs.Truth.{holds as rule_holds};
ghost use Rattle.asl_choice.specs.Seen.{seen};
ghost use Rattle.asl_def_states.specs.Choosing.{chosen_next};

use asl_choice::{Rule, RuleFault};
use asl_def_fields::{Compiled, PathField, TryClone, clone_all, json_all};
use asl_def_shared::{Common, Target, and, with, with_path};
use asl_json::{Json, Members, Txt};
use std::alloc::{AllocError, Global};
use std::marker::Model;

/// A rule of a Choice state, with the state that comes next where it holds. Contracts speak of its canonical object,
/// `choice_rule_object`.
#[derive(PartialEq, Eq)]
pub struct ChoiceRule {
    /// The rule.
    pub rule: Rule,
    /// `Next`.
    pub next: Target,
}

// Written out, so that a caller's proof sees one call and not the drop of each part.
impl Drop for ChoiceRule {
    fn drop(self) {
        let ChoiceRule {
            rule: _rule,
            next: _next,
        } = self;
    }
}

/// The rules of a Choice state, in the order in which they are tried. Contracts see them as the list of their canonical objects.
pub struct ChoiceRules {
    pub(crate) rules: Vec<ChoiceRule>,
}

impl Drop for ChoiceRules {
    fn drop(self) {
        let ChoiceRules { rules: _rules } = self;
    }
}

impl Model for ChoiceRules {
    ghost use Rattle.std.specs.Prelude.{List};
    ghost use Rattle.asl_json_data.specs.Data.{Data};
    ghost use Rattle.asl_json.specs.private.Code.{coded_items};

    ghost Value = { List Data };

    ghost coded = { coded_items };

    ghost use Rattle.asl_def_states.specs.Show.{choice_rule_objects};

    ghost view = { λ a. choice_rule_objects a.rules.items };
}

/// A Choice state. (Amazon States Language, "Choice State".) Contracts speak of its canonical object, `choice_object`.
#[derive(PartialEq, Eq)]
pub struct Choice {
    pub(crate) common: Common,
    pub(crate) input_path: PathField,
    pub(crate) choices: ChoiceRules,
    pub(crate) default: Option<Target>,
    pub(crate) output_path: PathField,
}

impl Drop for Choice {
    fn drop(self) {
        let Choice {
            common: _common,
            input_path: _input_path,
            choices: _choices,
            default: _default,
            output_path: _output_path,
        } = self;
    }
}

impl PartialEq for ChoiceRules {
    ghost use Rattle.asl_json.specs.Same.{items_equal};
    ghost use Rattle.asl_json.specs.private.SameLaws.{items_laws};

    ghost eq = { items_equal };

    ghost laws = { items_laws };

    fn eq(&self, other: &ChoiceRules) -> bool {
        self.rules.as_slice() == other.rules.as_slice()
    }
}

impl Eq for ChoiceRules {
    ghost use Rattle.asl_json.specs.private.SameLaws.{items_equivalence};

    ghost laws = { items_equivalence };
}

impl ChoiceRule {
    fn read(alloc: Global, value: &Json) -> Result<ChoiceRule, AllocError>
        requires { IsClean rule_sort (data_of value.now) }
        ensures { IfOk result (λ r. choice_rule_object r ≡ canon rule_sort (data_of value.now)) }
    {
        let Json::Dict(members) = value else {
            unreachable!();
        };
        Ok(ChoiceRule {
            rule: Rule::read(alloc, members.members())?,
            next: Target::read(alloc, members.find("Next"))?,
        })
    }

    fn holds<'a>(&'a self, input: &Json, context: &Json) -> Result<bool, RuleFault<'a>>
        ensures truth { seen (λ b. b) result
            ≡ rule_holds (choice_rule_object self.now) (data_of input.now) (data_of context.now) }
        ensures next { value_in (codes "Next") (choice_rule_object self.now)
            ≡ Some (text self.now.next.name) }
    {
        self.rule.holds(input, context)
    }
}

impl Compiled for ChoiceRule {
    ghost use Rattle.asl_def_states.specs.Show.{choice_rule_object};

    ghost shown = { choice_rule_object };

    fn json(&self, alloc: Global) -> Result<Json, AllocError> {
        let mut members = self.rule.members(alloc)?;
        let name = Txt::of(alloc, "Next")?;
        members.push(name, self.next.json(alloc)?)?;
        Ok(Json::Dict(members))
    }
}

impl ChoiceRules {
    /// The rules.
    pub fn as_slice(&self) -> &[ChoiceRule]
        ensures { choice_rule_objects result.now ≡ self.now }
    {
        &self.rules
    }

    /// `Next` of the first rule that holds on an input and a Context Object, and `None` where no rule holds. A fault of a rule counts
    /// where no rule before it holds. Takes no memory.
    pub fn next<'a>(
        &'a self,
        input: &Json,
        context: &Json,
    ) -> Result<Option<&'a Target>, RuleFault<'a>>
        ensures { seen (λ t. option_map (λ t. text t.now.name) t) result
            ≡ chosen_next self.now (data_of input.now) (data_of context.now) }
    {
        for rule in &self.rules {
            if rule.holds(input, context)? {
                return Ok(Some(&rule.next));
            }
        }
        Ok(None)
    }

    fn read(alloc: Global, value: &Json) -> Result<ChoiceRules, AllocError>
        requires { IsClean rules_sort (data_of value.now) }
        ensures { IfOk result (λ rs. list (chain rs) ≡ canon rules_sort (data_of value.now)) }
    {
        let Json::List(values) = value else {
            unreachable!();
        };
        let mut rules = Vec::new(alloc);
        for value in values.values() {
            rules.push(ChoiceRule::read(alloc, value)?)?;
        }
        Ok(ChoiceRules { rules })
    }
}

impl Compiled for ChoiceRules {
    ghost use Rattle.asl_json_data.specs.Data.{list, chain};

    ghost shown = { λ rs. list (chain rs) };

    fn json(&self, alloc: Global) -> Result<Json, AllocError> {
        Ok(Json::List(json_all(alloc, &self.rules)?))
    }
}

impl Choice {
    /// `Comment`.
    pub fn comment(&self) -> Option<&Txt>
        ensures { option_map (λ t. text t.now) result
            ≡ value_in (codes "Comment") (choice_object self.now) }
    {
        self.common.comment.as_ref()
    }

    /// `QueryLanguage`.
    pub fn query_language(&self) -> Option<&Txt>
        ensures { option_map (λ t. text t.now) result
            ≡ value_in (codes "QueryLanguage") (choice_object self.now) }
    {
        self.common.query_language.as_ref()
    }

    /// `InputPath`.
    pub fn input_path(&self) -> &PathField
        ensures { path_shown result.now ≡ value_in (codes "InputPath") (choice_object self.now) }
    {
        &self.input_path
    }

    /// `Choices`.
    pub fn choices(&self) -> &ChoiceRules
        ensures { Some (list (chain result.now))
            ≡ value_in (codes "Choices") (choice_object self.now) }
    {
        &self.choices
    }

    /// `Default`.
    pub fn default(&self) -> Option<&Target>
        ensures { option_map (λ x. text x.now.name) result
            ≡ value_in (codes "Default") (choice_object self.now) }
    {
        self.default.as_ref()
    }

    /// `OutputPath`.
    pub fn output_path(&self) -> &PathField
        ensures { path_shown result.now ≡ value_in (codes "OutputPath") (choice_object self.now) }
    {
        &self.output_path
    }

    /// Compiles the members of a Choice state without faults. The error is that memory ran out.
    pub fn read(alloc: Global, members: &Members) -> Result<Choice, AllocError>
        requires { IsOfKind choice_kind members.now }
        ensures { IfOk result (λ c. choice_object c ≡ canon state_sort (dict (pairs members.now))) }
    {
        let Some(choices) = members.find("Choices") else {
            unreachable!();
        };
        Ok(Choice {
            common: Common::read(alloc, members)?,
            input_path: PathField::read(alloc, members.find("InputPath"))?,
            choices: ChoiceRules::read(alloc, choices)?,
            default: Target::read_optional(alloc, members.find("Default"))?,
            output_path: PathField::read(alloc, members.find("OutputPath"))?,
        })
    }

    /// Its canonical object.
    pub fn json(&self, alloc: Global) -> Result<Json, AllocError>
        ensures { IfOk result (λ j. data_of j ≡ choice_object self.now) }
    {
        let own = with_path(alloc, Vec::new(alloc), "InputPath", &self.input_path)?;
        let own = with(alloc, own, "Choices", &self.choices)?;
        let default = Target::json_optional(alloc, &self.default)?;
        let own = and(own, "Default", default)?;
        let own = with_path(alloc, own, "OutputPath", &self.output_path)?;
        self.common.object(alloc, "Choice", own)
    }
}

impl TryClone for ChoiceRule {
    fn try_clone(&self, alloc: Global) -> Result<ChoiceRule, AllocError> {
        Ok(ChoiceRule {
            rule: self.rule.try_clone(alloc)?,
            next: self.next.try_clone(alloc)?,
        })
    }
}

impl TryClone for ChoiceRules {
    fn try_clone(&self, alloc: Global) -> Result<ChoiceRules, AllocError> {
        Ok(ChoiceRules {
            rules: clone_all(alloc, &self.rules)?,
        })
    }
}

impl TryClone for Choice {
    fn try_clone(&self, alloc: Global) -> Result<Choice, AllocError> {
        Ok(Choice {
            common: self.common.try_clone(alloc)?,
            input_path: self.input_path.try_clone(alloc)?,
            choices: self.choices.try_clone(alloc)?,
            default: self.default.try_clone(alloc)?,
            output_path: self.output_path.try_clone(alloc)?,
        })
    }
}
