// Names of states at which branches pause.
ghost use Rattle.std.specs.Prelude.{◌≡◌, [], OnOk, OnErr};
ghost use Rattle.asl_session.specs.Sessions.{is_among, with_one, without};

use asl_json_shared::Name;
use std::alloc::{AllocError, Global};
use std::marker::Model;

/// Names, each at most once, in the order in which they came. Contracts see them as that list.
#[derive(Drop)]
pub(crate) struct Names {
    list: Vec<Name>,
}

impl Model for Names {
    ghost use Rattle.std.specs.Prelude.{List, ℕ};

    ghost Value = { List (List ℕ) };

    ghost view = { λ n. n.list.items };
}

impl Names {
    /// No names.
    pub(crate) fn new(alloc: Global) -> Names
        ensures { result ≡ [] }
    {
        Names {
            list: Vec::new(alloc),
        }
    }

    /// Whether the name is there.
    pub(crate) fn contains(&self, name: &Name) -> bool
        ensures { result ≡ is_among name.now self.now }
    {
        self.list.as_slice().contains(name)
    }

    /// The name is there from now on. The error is that memory ran out, and nothing changed.
    pub(crate) fn add(&mut self, name: &Name) -> Result<(), AllocError>
        ensures ok { OnOk result (self.new ≡ with_one name.now self.old) }
        ensures err { OnErr result (self.new ≡ self.old) }
    {
        if self.contains(name) {
            return Ok(());
        }
        let name = name.try_clone()?;
        match self.list.push(name) {
            Ok(()) => Ok(()),
            Err(_) => Err(AllocError),
        }
    }

    /// The name isn't there any more.
    pub(crate) fn remove(&mut self, name: &Name)
        ensures { self.new ≡ without name.now self.old }
    {
        self.list.retain(|other| *other != *name);
    }
}
