// Map states.
ghost use Rattle.std.specs.Prelude.{◌≡◌, List, IfOk, codes, option_map, true, ℕ};
ghost use Rattle.asl_json.specs.View.{data_of};
ghost use Rattle.asl_json_data.specs.Data.{dict, pairs, text, number};
ghost use Rattle.asl_def_schema.specs.declared.sort.Sort.TheVariants.{State as state_sort, Machine as machine_sort, ItemProcessor as processor_sort};
ghost use Rattle.asl_def_schema.specs.declared.sort.Kind.TheVariants.{Map as map_kind};
ghost use Rattle.asl_def_schema.specs.Canon.{Named, canon, kept_at};
ghost use Rattle.asl_def_shared.specs.Built.{IsOfKind};
ghost use Rattle.asl_def_states.specs.Items.{processor_in, selector_in, machine_names, member_in};
ghost use Rattle.asl_def_states.specs.Show.{map_object, selector_shown, machine_shown, as_iterator, as_item_processor};
ghost use Rattle.asl_def_states.specs.Newer.{newer_selector, newer_map};
ghost use Rattle.asl_def_shared.specs.Bodies.{body_of};
ghost use Rattle.asl_json.specs.Meaning.{value_in};
ghost use Rattle.asl_def_fields.specs.Shown.{path_shown};
ghost use Rattle.asl_def_schema.specs.Members.{is_among};
ghost use Rattle.asl_def_shared.specs.Member.{completion_names, completion_object};

use crate::processor::{Processor, Selector, as_item_selector, as_parameters, template_json};
use asl_def_fields::{Count, PathField, TryClone, read_optional};
use asl_def_shared::{Body, Common, Completion, and, with_optional, with_path};
use asl_json::{Json, Members, Txt};
use asl_path::RefPath;
use asl_template::Template;
use std::alloc::{AllocError, Global};

/// A Map state. (Amazon States Language, "Map State".) Contracts speak of its canonical object over the table of states,
/// `map_object`.
#[derive(PartialEq, Eq)]
pub struct Map {
    pub(crate) common: Common,
    pub(crate) input_path: PathField,
    pub(crate) items_path: Option<RefPath>,
    pub(crate) max_concurrency: Option<Count>,
    pub(crate) selector: Option<Selector>,
    /// The machine that it runs for each item, in its spelling.
    pub processor: Processor,
    pub(crate) completion: Completion,
}

// Written out, so that a caller's proof sees one call and not the drop of each part.
impl Drop for Map {
    fn drop(self) {
        let Map {
            common: _common,
            input_path: _input_path,
            items_path: _items_path,
            max_concurrency: _max_concurrency,
            selector: _selector,
            processor: _processor,
            completion: _completion,
        } = self;
    }
}

/// The template, in either spelling.
fn template_of(selector: &Option<Selector>) -> Option<&Template>
    ensures { option_map (λ x. x.now) result ≡ selector_shown selector.now }
{
    match selector {
        Some(Selector::Parameters(template)) => Some(template),
        Some(Selector::ItemSelector(template)) => Some(template),
        None => None,
    }
}

/// The template as `ItemSelector`, where it is there.
fn newer_template(selector: Option<Selector>) -> Option<Selector>
    ensures { result ≡ option_map newer_selector selector }
{
    match selector {
        Some(selector) => Some(selector.newer()),
        None => None,
    }
}

impl Map {
    /// The same state in the newer spelling: its machine is `ItemProcessor`, its template `ItemSelector`.
    pub fn newer(self) -> Map
        ensures { result ≡ newer_map self }
    {
        let Map {
            common,
            input_path,
            items_path,
            max_concurrency,
            selector,
            processor,
            completion,
        } = self;
        Map {
            common,
            input_path,
            items_path,
            max_concurrency,
            selector: newer_template(selector),
            processor: processor.newer(),
            completion,
        }
    }

    /// `Comment`.
    pub fn comment(&self) -> Option<&Txt>
        ensures { (t : List Named)
            → option_map (λ x. text x.now) result
            ≡ value_in (codes "Comment") (map_object t self.now) }
    {
        self.common.comment.as_ref()
    }

    /// `QueryLanguage`.
    pub fn query_language(&self) -> Option<&Txt>
        ensures { (t : List Named)
            → option_map (λ x. text x.now) result
            ≡ value_in (codes "QueryLanguage") (map_object t self.now) }
    {
        self.common.query_language.as_ref()
    }

    /// `InputPath`.
    pub fn input_path(&self) -> &PathField
        ensures { (t : List Named)
            → path_shown result.now ≡ value_in (codes "InputPath") (map_object t self.now) }
    {
        &self.input_path
    }

    /// `ItemsPath`.
    pub fn items_path(&self) -> Option<&RefPath>
        ensures { (t : List Named)
            → option_map (λ x. text x.now) result
            ≡ value_in (codes "ItemsPath") (map_object t self.now) }
    {
        self.items_path.as_ref()
    }

    /// `MaxConcurrency`.
    pub fn max_concurrency(&self) -> Option<&Count>
        ensures { (t : List Named)
            → option_map (λ x. number x.now) result
            ≡ value_in (codes "MaxConcurrency") (map_object t self.now) }
    {
        self.max_concurrency.as_ref()
    }

    /// `Parameters` or `ItemSelector`: the template for the inputs of iterations.
    pub fn item_selector(&self) -> Option<&Template>
        ensures { (t : List Named)
            → option_map (λ x. x.now) result ≡ selector_in (map_object t self.now) }
    {
        template_of(&self.selector)
    }

    /// `Iterator` or `ItemProcessor`: the machine that is run for each item.
    pub fn item_processor(&self) -> &Body
        ensures { (t : List Named) → (k : List ℕ) → is_among k machine_names ≡ true
            → value_in k (body_of t result.now)
            ≡ member_in k (processor_in (map_object t self.now)) }
    {
        self.processor.machine()
    }

    /// What becomes of its result or its error.
    pub fn completion(&self) -> &Completion
        ensures { (t : List Named) → (k : List ℕ) → is_among k completion_names ≡ true
            → value_in k (completion_object result.now) ≡ value_in k (map_object t self.now) }
    {
        &self.completion
    }

    /// Compiles a state with its machine, which stands in a table already.
    pub fn read(alloc: Global, members: &Members, processor: Processor) -> Result<Map, AllocError>
        requires { IsOfKind map_kind members.now }
        ensures processor { IfOk result (λ x. x.processor ≡ processor) }
        ensures object { IfOk result (λ x. (t : List Named)
            → as_iterator processor (machine_shown t processor)
            ≡ kept_at (codes "Iterator") machine_sort (pairs members.now)
            → as_item_processor processor (machine_shown t processor)
            ≡ kept_at (codes "ItemProcessor") processor_sort (pairs members.now)
            → map_object t x ≡ canon state_sort (dict (pairs members.now))) }
    {
        Ok(Map {
            common: Common::read(alloc, members)?,
            input_path: PathField::read(alloc, members.find("InputPath"))?,
            items_path: read_optional(alloc, members.find("ItemsPath"))?,
            max_concurrency: read_optional(alloc, members.find("MaxConcurrency"))?,
            selector: Selector::read(
                alloc,
                members.find("Parameters"),
                members.find("ItemSelector"),
            )?,
            processor,
            completion: Completion::read(alloc, members)?,
        })
    }

    /// Its canonical object over a table, given its machine.
    pub fn json(&self, alloc: Global, machine: Json) -> Result<Json, AllocError>
        ensures { IfOk result (λ j. (t : List Named)
            → data_of machine ≡ machine_shown t self.now.processor
            → data_of j ≡ map_object t self.now) }
    {
        let own = with_path(alloc, Vec::new(alloc), "InputPath", &self.input_path)?;
        let own = with_optional(alloc, own, "ItemsPath", &self.items_path)?;
        let own = with_optional(alloc, own, "MaxConcurrency", &self.max_concurrency)?;
        let parameters = template_json(alloc, as_parameters(&self.selector))?;
        let own = and(own, "Parameters", parameters)?;
        let item_selector = template_json(alloc, as_item_selector(&self.selector))?;
        let own = and(own, "ItemSelector", item_selector)?;
        let (iterator, item_processor) = self.processor.named(machine);
        let own = and(own, "Iterator", iterator)?;
        let own = and(own, "ItemProcessor", item_processor)?;
        let own = self.completion.entries(alloc, own)?;
        self.common.object(alloc, "Map", own)
    }
}

impl TryClone for Map {
    fn try_clone(&self, alloc: Global) -> Result<Map, AllocError> {
        Ok(Map {
            common: self.common.try_clone(alloc)?,
            input_path: self.input_path.try_clone(alloc)?,
            items_path: self.items_path.try_clone(alloc)?,
            max_concurrency: self.max_concurrency.try_clone(alloc)?,
            selector: self.selector.try_clone(alloc)?,
            processor: self.processor.try_clone(alloc)?,
            completion: self.completion.try_clone(alloc)?,
        })
    }
}
