// What stands at the place of a fault.
use crate::object::Object;
use asl_def_schema::{Shape, Sort, Step, item_sort, sort_at};
use asl_json::{Json, Member};
use std::alloc::{AllocError, Global};

/// What stands at a place of a definition, and around it.
#[derive(Clone, Copy)]
pub struct Standing<'a> {
    /// The value; none where a member is missing.
    pub(crate) value: Option<&'a Json>,
    /// What it is to be.
    pub(crate) sort: Sort,
    /// Its key; of an item its number.
    pub(crate) key: &'a str,
    /// Whether it is an item of a list.
    pub(crate) is_item: bool,
    /// Its number among the members or items.
    pub(crate) at: usize,
    /// The object that it is in, or the one that its list is in.
    pub(crate) around: Option<&'a Object<'a>>,
}

impl<'a> Standing<'a> {
    /// The members of the object that it is in.
    pub(crate) fn object(&self) -> &'a [Member] {
        match self.around {
            Some(object) => object.members,
            None => &[],
        }
    }

    /// What that object is to be.
    pub(crate) fn object_sort(&self) -> Sort {
        match self.around {
            Some(object) => object.sort,
            None => Sort::Any,
        }
    }

    /// What that object is called.
    pub(crate) fn object_noun(&self) -> &'static str {
        match self.around {
            Some(object) => object.noun,
            None => "this object",
        }
    }

    /// The states of the machine that it is in.
    pub(crate) fn states(&self) -> &'a [Member] {
        match self.around {
            Some(object) => object.states,
            None => &[],
        }
    }

    /// The members of the value, where it is an object.
    pub(crate) fn members(&self) -> &'a [Member] {
        match self.value {
            Some(value) => value.members(),
            None => &[],
        }
    }

    /// The items of the value, where it is a list.
    pub(crate) fn items(&self) -> &'a [Json] {
        match self.value {
            Some(value) => value.items(),
            None => &[],
        }
    }

    /// The text that the value is; empty where it is none.
    pub(crate) fn text(&self) -> &'a str {
        match self.value {
            Some(Json::Text(text)) => text.as_str(),
            _ => "",
        }
    }
}

/// A value on the way to a place.
#[derive(Drop)]
struct Level<'a> {
    value: Option<&'a Json>,
    sort: Sort,
    key: &'a str,
    is_item: bool,
    at: usize,
    /// The number of the level of the object that it is in, or of the one that its list is in.
    around: usize,
    /// What is looked up in it once, where it is an object.
    object: Option<Object<'a>>,
}

/// The value of a member; none where there is none.
fn value_of(member: Option<&Member>) -> Option<&Json> {
    match member {
        Some(member) => Some(&member.value),
        None => None,
    }
}

impl<'a> Level<'a> {
    /// The definition.
    fn whole(definition: &'a Json) -> Level<'a> {
        Level {
            value: Some(definition),
            sort: Sort::Definition,
            key: "",
            is_item: false,
            at: 0,
            around: 0,
            object: None,
        }
    }

    /// An item of it.
    fn item(&self, step: &'a Step, value: Option<&'a Json>) -> Level<'a> {
        Level {
            value,
            sort: item_sort(self.sort),
            key: step.name.as_str(),
            is_item: true,
            at: step.at,
            around: self.around,
            object: None,
        }
    }

    /// A member of it.
    fn member(
        &self,
        number: usize,
        shape: Shape,
        step: &'a Step,
        value: Option<&'a Json>,
    ) -> Level<'a> {
        let key = step.name.as_str();
        Level {
            value,
            sort: sort_at(shape, key),
            key,
            is_item: false,
            at: step.at,
            around: number,
            object: None,
        }
    }
}

/// Places of a definition, looked at one after another. What is looked up in an object is kept for the places in it that follow: in document order
/// each object is looked at once.
#[derive(Drop)]
pub struct Places<'a> {
    /// From the definition in.
    levels: Vec<Level<'a>>,
}

impl<'a> Places<'a> {
    /// At the whole definition. The error is that memory ran out.
    pub fn of(alloc: Global, definition: &'a Json) -> Result<Places<'a>, AllocError> {
        let mut levels = Vec::new(alloc);
        levels.push(Level::whole(definition))?;
        Ok(Places { levels })
    }

    /// Goes to the place of these steps, of which the innermost is the first. The error is that memory ran out.
    pub fn go(&mut self, alloc: Global, steps: &'a [Step]) -> Result<(), AllocError> {
        let kept = self.shared(steps);
        self.levels.truncate(kept.saturating_add(1));
        for step in steps.iter().rev().skip(kept) {
            self.enter(alloc, step)?;
        }
        Ok(())
    }

    /// How many of the outermost steps lead the way of the last place.
    fn shared(&self, steps: &[Step]) -> usize {
        let mut shared: usize = 0;
        for (level, step) in self.levels.iter().skip(1).zip(steps.iter().rev()) {
            if level.at != step.at || level.key != step.name.as_str() {
                return shared;
            }
            shared = shared.saturating_add(1);
        }
        shared
    }

    /// What stands there.
    pub fn standing(&self) -> Standing<'_> {
        let Some(level) = self.levels.last() else {
            return Standing {
                value: None,
                sort: Sort::Any,
                key: "",
                is_item: false,
                at: 0,
                around: None,
            };
        };
        Standing {
            value: level.value,
            sort: level.sort,
            key: level.key,
            is_item: level.is_item,
            at: level.at,
            around: self.object_at(level.around),
        }
    }

    fn object_at(&self, number: usize) -> Option<&Object<'a>> {
        match self.levels.get(number) {
            Some(level) => match &level.object {
                Some(object) => Some(object),
                None => None,
            },
            None => None,
        }
    }

    /// Goes a step further in.
    fn enter(&mut self, alloc: Global, step: &'a Step) -> Result<(), AllocError> {
        let number = self.levels.len().saturating_sub(1);
        self.look_inside(alloc, number)?;
        let Some(level) = self.levels.get(number) else {
            return Ok(());
        };
        let next = match (level.value, &level.object) {
            (Some(Json::Dict(members)), Some(object)) => {
                let value = value_of(members.members().get(step.at));
                level.member(number, object.shape, step, value)
            }
            (Some(Json::List(items)), _) => level.item(step, items.values().get(step.at)),
            _ => level.item(step, None),
        };
        self.levels.push(next)?;
        Ok(())
    }

    /// Looks up in the object of a level what isn't looked up yet.
    fn look_inside(&mut self, alloc: Global, number: usize) -> Result<(), AllocError> {
        let object = match self.levels.get(number) {
            Some(level) => match (level.value, &level.object) {
                (Some(Json::Dict(members)), None) => {
                    let states = match self.object_at(level.around) {
                        Some(around) => around.states,
                        None => &[],
                    };
                    Object::of(alloc, level.sort, members.members(), states)?
                }
                _ => return Ok(()),
            },
            None => return Ok(()),
        };
        if number < self.levels.len() {
            self.levels[number].object = Some(object);
        }
        Ok(())
    }
}
