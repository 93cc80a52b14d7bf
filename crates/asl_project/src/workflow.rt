// What a workflow of a project is.
ghost use Rattle.std.specs.Prelude.{◌≡◌};

use asl_json::Txt;
use std::marker::Model;

/// Names. Contracts see the list.
pub struct Names {
    names: Vec<Txt>,
}

impl Drop for Names {
    fn drop(self) {
        let Names { names: _names } = self;
    }
}

impl Model for Names {
    ghost use Rattle.std.specs.Prelude.{List, ℕ};

    ghost Value = { List (List ℕ) };

    ghost view = { λ a. a.names.items };
}

impl Names {
    /// These.
    pub fn of_names(names: Vec<Txt>) -> Names
        ensures { result ≡ names.items }
    {
        Names { names }
    }

    /// Each, in order.
    pub fn names(&self) -> &[Txt]
        ensures { result.now ≡ self.now }
    {
        &self.names
    }
}

/// A workflow: the names of its files, as a program finds them from the folder that it runs in.
pub struct Workflow {
    /// The file of its definition.
    pub definition: Txt,
    /// Its mock file, if it has one.
    pub mocks: Option<Txt>,
    /// The name of its machine there; none where that is the only one.
    pub machine: Option<Txt>,
    /// Its files of expectations.
    pub tests: Names,
    /// The file of the input where a command wants one and none is given.
    pub input: Option<Txt>,
    /// The rules that aren't asked of it.
    pub ignore: Names,
}

// Written out, so that a caller's proof sees one call and not the drop of each part.
impl Drop for Workflow {
    fn drop(self) {
        let Workflow {
            definition: _definition,
            mocks: _mocks,
            machine: _machine,
            tests: _tests,
            input: _input,
            ignore: _ignore,
        } = self;
    }
}
