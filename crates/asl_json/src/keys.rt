// The keys of an object's members while they are gone through.
ghost use Rattle.std.specs.Prelude.{◌≡◌, ◌∷◌, ◌++◌, [], IfOk, OnOk, OnErr};
ghost use Rattle.asl_json_data.specs.Data.{Data};
ghost use Rattle.asl_json.specs.View.{members_of};
ghost use Rattle.asl_json_data.specs.Distinct.{has_key};
ghost use Rattle.asl_json.specs.Keys.{HasKeys, Knows};

use crate::value::Member;
use std::alloc::{AllocError, Global};
use std::collections::HashSet;
use std::marker::Model;

/// From so many members on their keys are kept in a set, so that wide objects are read in linear time.
const MANY: usize = 16;

/// The keys of an object's members so far, once there are many. They are asked for and added together with these members.
/// Contracts see them as a list in some order, where there are any yet.
pub struct Keys {
    names: Option<HashSet<String>>,
}

// Written out, so that a caller's proof sees one call and not the drop of each part.
impl Drop for Keys {
    fn drop(self) {
        let Keys { names: _names } = self;
    }
}

impl Model for Keys {
    ghost use Rattle.std.specs.Prelude.{List, ℕ, Option, option_map};
    ghost use Rattle.asl_json.specs.Keys.{texts_in};

    ghost Value = { Option (List (List ℕ)) };

    ghost view = { λ a. option_map texts_in a.names };
}

/// Whether a key is among the members.
fn is_among(members: &[Member], key: &str) -> bool
    ensures { result ≡ has_key key.now (members_of members.now) }
{
    for member in members {
        if key == member.key.as_str() {
            return true;
        }
    }
    false
}

/// The keys of these members.
fn set_of(alloc: Global, members: &[Member]) -> Result<HashSet<String>, AllocError>
    ensures { IfOk result (λ s. HasKeys s (members_of members.now)) }
{
    let mut names = HashSet::new(alloc);
    for member in members {
        names.insert(String::from_str(alloc, member.key.as_str())?)?;
    }
    Ok(names)
}

impl Keys {
    /// The keys of no members.
    pub fn new() -> Keys
        ensures { Knows result [] }
    {
        Keys { names: None }
    }

    /// Whether a key is among these members, which are those so far. Its cost is the length of the key, however many
    /// members there are.
    pub fn has(&self, members: &[Member], key: &str) -> bool
        requires { Knows self.now (members_of members.now) }
        ensures { result ≡ has_key key.now (members_of members.now) }
    {
        match &self.names {
            Some(names) => names.contains(key),
            None => is_among(members, key),
        }
    }

    /// Takes in the key of the next member behind these. The error is that memory ran out, and then nothing is changed.
    pub fn add(&mut self, alloc: Global, members: &[Member], key: &str) -> Result<(), AllocError>
        requires { Knows self.old (members_of members.now) }
        ensures ok { OnOk result ((d : Data)
            → Knows self.new (members_of members.now ++ (key.now, d) ∷ [])) }
        ensures err { OnErr result (self.new ≡ self.old) }
    {
        if members.len() < MANY {
            self.names = None;
            return Ok(());
        }
        let name = String::from_str(alloc, key)?;
        match &mut self.names {
            Some(names) => {
                names.insert(name)?;
            }
            None => {
                let mut names = set_of(alloc, members)?;
                names.insert(name)?;
                self.names = Some(names);
            }
        }
        Ok(())
    }
}
