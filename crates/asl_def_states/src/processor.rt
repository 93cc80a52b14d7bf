// What a Map state runs for each item, and on what input, in either spelling.
ghost use Rattle.std.specs.Prelude.{◌≡◌, true, false, IfOk, is_some, option_map};
ghost use Rattle.asl_json.specs.View.{data_of};
ghost use Rattle.asl_def_schema.specs.declared.sort.Sort.TheVariants.{Template as template_sort};
ghost use Rattle.asl_def_schema.specs.Clean.{Fits};
ghost use Rattle.asl_def_states.specs.Show.{body_in, config_in, parameters_shown, item_selector_shown, as_iterator, as_item_processor};
ghost use Rattle.asl_def_states.specs.Newer.{newer_processor, newer_selector};

use asl_def_fields::{Compile, Compiled, ProcessorConfig, TryClone};
use asl_def_shared::Body;
use asl_json::Json;
use asl_template::Template;
use std::alloc::{AllocError, Global};

/// The machine that a Map state runs for each item. (Amazon States Language, "Map State".)
#[derive(PartialEq, Eq)]
pub enum Processor {
    /// `Iterator`, as it was spelled first.
    Iterator(Body),
    /// `ItemProcessor`, with its `ProcessorConfig`.
    ItemProcessor(Option<ProcessorConfig>, Body),
}

// Written out, so that a caller's proof sees one call and not the drop of each part.
impl Drop for Processor {
    fn drop(self) {
        match self {
            Processor::Iterator(_part) => {}
            Processor::ItemProcessor(_config, _part) => {}
        }
    }
}

impl Processor {
    /// The machine, in either spelling.
    pub fn machine(&self) -> &Body
        ensures { result.now ≡ body_in self.now }
    {
        match self {
            Processor::Iterator(body) => body,
            Processor::ItemProcessor(_, body) => body,
        }
    }

    /// Its `ProcessorConfig`, where it is there.
    pub fn config(&self) -> Option<ProcessorConfig>
        ensures { result ≡ config_in self.now }
    {
        match self {
            Processor::Iterator(_) => None,
            Processor::ItemProcessor(config, _) => *config,
        }
    }

    /// The same machine as `ItemProcessor`.
    pub(crate) fn newer(self) -> Processor
        ensures { result ≡ newer_processor self }
    {
        match self {
            Processor::Iterator(body) => Processor::ItemProcessor(None, body),
            Processor::ItemProcessor(config, body) => Processor::ItemProcessor(config, body),
        }
    }

    /// The machine as JSON, under the one name or the other: as `Iterator` and as `ItemProcessor`.
    pub(crate) fn named(&self, machine: Json) -> (Option<Json>, Option<Json>)
        ensures iterator { option_map data_of result.0 ≡ as_iterator self.now (data_of machine) }
        ensures item_processor { option_map data_of result.1
            ≡ as_item_processor self.now (data_of machine) }
    {
        match self {
            Processor::Iterator(_) => (Some(machine), None),
            Processor::ItemProcessor(_, _) => (None, Some(machine)),
        }
    }
}

impl TryClone for Processor {
    fn try_clone(&self, alloc: Global) -> Result<Processor, AllocError> {
        match self {
            Processor::Iterator(body) => Ok(Processor::Iterator(body.try_clone(alloc)?)),
            Processor::ItemProcessor(config, body) => {
                Ok(Processor::ItemProcessor(*config, body.try_clone(alloc)?))
            }
        }
    }
}

/// The template for the inputs of a Map's iterations. (Amazon States Language, "Map State".)
#[derive(PartialEq, Eq)]
pub enum Selector {
    /// `Parameters`, as it was spelled first.
    Parameters(Template),
    /// `ItemSelector`.
    ItemSelector(Template),
}

impl Drop for Selector {
    fn drop(self) {
        match self {
            Selector::Parameters(_part) => {}
            Selector::ItemSelector(_part) => {}
        }
    }
}

impl Selector {
    /// The same template as `ItemSelector`.
    pub(crate) fn newer(self) -> Selector
        ensures { result ≡ newer_selector self }
    {
        match self {
            Selector::Parameters(template) => Selector::ItemSelector(template),
            Selector::ItemSelector(template) => Selector::ItemSelector(template),
        }
    }

    /// Compiles the value of `Parameters` or of `ItemSelector`, of which one is there at most.
    pub(crate) fn read(
        alloc: Global,
        parameters: Option<&Json>,
        item_selector: Option<&Json>,
    ) -> Result<Option<Selector>, AllocError>
        requires parameters { Fits template_sort (option_map (λ v. data_of v.now) parameters) }
        requires item_selector { Fits template_sort
            (option_map (λ v. data_of v.now) item_selector) }
        requires one { is_some parameters ≡ true → is_some item_selector ≡ false }
        ensures parameters { IfOk result (λ s. parameters_shown s
            ≡ option_map (λ v. data_of v.now) parameters.entry) }
        ensures item_selector { IfOk result (λ s. item_selector_shown s
            ≡ option_map (λ v. data_of v.now) item_selector.entry) }
    {
        if let Some(template) = parameters {
            return Ok(Some(Selector::Parameters(Compile::read(alloc, template)?)));
        }
        match item_selector {
            Some(template) => Ok(Some(Selector::ItemSelector(Compile::read(alloc, template)?))),
            None => Ok(None),
        }
    }
}

impl TryClone for Selector {
    fn try_clone(&self, alloc: Global) -> Result<Selector, AllocError> {
        match self {
            Selector::Parameters(template) => Ok(Selector::Parameters(template.try_clone(alloc)?)),
            Selector::ItemSelector(template) => Ok(Selector::ItemSelector(template.try_clone(
                alloc,
            )?)),
        }
    }
}

/// The template, where it is `Parameters`.
pub(crate) fn as_parameters(selector: &Option<Selector>) -> Option<&Template>
    ensures { option_map (λ x. x.now) result ≡ parameters_shown selector.now }
{
    match selector {
        Some(Selector::Parameters(template)) => Some(template),
        _ => None,
    }
}

/// The template, where it is `ItemSelector`.
pub(crate) fn as_item_selector(selector: &Option<Selector>) -> Option<&Template>
    ensures { option_map (λ x. x.now) result ≡ item_selector_shown selector.now }
{
    match selector {
        Some(Selector::ItemSelector(template)) => Some(template),
        _ => None,
    }
}

/// A template as JSON, where it is there.
pub(crate) fn template_json(
    alloc: Global,
    template: Option<&Template>,
) -> Result<Option<Json>, AllocError>
    ensures { IfOk result (λ j. option_map data_of j ≡ option_map (λ x. x.now) template.entry) }
{
    match template {
        Some(template) => Ok(Some(template.json(alloc)?)),
        None => Ok(None),
    }
}
