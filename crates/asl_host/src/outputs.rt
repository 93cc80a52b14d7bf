// Files that are written.
ghost use Rattle.std.specs.Prelude.{◌≡◌, ◌++◌, ◌∷◌, [], OnOk, OnErr};
ghost use Rattle.asl_host.specs.Writing.{unwritable_words};

use crate::written::Written;
use std::io::{ErrorKind, Write};
use std::{fs, io, rt};

/// Why a file can't be written.
#[derive(Clone, Copy, Debug, PartialEq, Eq)]
pub enum Unwritable {
    /// There is no folder for it.
    Folderless,
    /// It is a folder.
    Folder,
    /// Leave to write it is lacking.
    Forbidden,
    /// A write failed for another reason.
    Failed,
}

impl Unwritable {
    /// What is told of it behind the file's name.
    pub fn words(self) -> &'static str
        ensures { result.now ≡ unwritable_words self }
    {
        match self {
            Unwritable::Folderless => ": there is no folder for it",
            Unwritable::Folder => ": it is a folder",
            Unwritable::Forbidden => ": permission denied",
            Unwritable::Failed => ": a write failed",
        }
    }
}

/// Files that are written by their names, as the machine's, or some in memory.
pub trait Outputs {
    ghost use Rattle.std.specs.Prelude.{List, ℕ};

    // The files that were written so far, each with its name and its bytes, the first that was written first.
    ghost written: { Self → List (List ℕ × List ℕ) };

    /// Writes a file of this name and with this text, in place of one that is there.
    fn write(&mut self, name: &str, text: &str) -> Result<(), Unwritable>
        ensures ok { OnOk result (written self.new ≡ written self.old ++ (name.now, text.now) ∷ []) }
        ensures err { OnErr result (written self.new ≡ written self.old) };
}

/// The machine's files.
#[derive(Drop)]
pub struct HostOutputs<'a, R> {
    rt: &'a R,
    written: Written,
}

impl<'a, R: rt::Files> HostOutputs<'a, R> {
    /// The files that a runtime makes; none is written so far.
    pub fn new(rt: &'a R) -> HostOutputs<'a, R>
        ensures written { result.written.files ≡ [] }
    {
        HostOutputs {
            rt,
            written: Written::new(),
        }
    }
}

impl<'a, R: rt::Files> Outputs for HostOutputs<'a, R> {
    ghost written = { λ o. o.written.files };

    fn write(&mut self, name: &str, text: &str) -> Result<(), Unwritable> {
        match write_whole(self.rt, name, text) {
            Ok(()) => {
                self.written = self.written.with(name.as_bytes(), text.as_bytes());
                Ok(())
            }
            Err(error) => Err(unwritable_by(&error)),
        }
    }
}

/// Makes a file of this name, and writes the text to it.
fn write_whole<R: rt::Files>(rt: &R, name: &str, text: &str) -> io::Result<()> {
    let mut file = fs::create(rt, name)?;
    file.write_all(text.as_bytes())
}

fn unwritable_by(error: &io::Error) -> Unwritable {
    match error.kind() {
        ErrorKind::NotFound => Unwritable::Folderless,
        ErrorKind::IsADirectory => Unwritable::Folder,
        ErrorKind::PermissionDenied => Unwritable::Forbidden,
        _ => Unwritable::Failed,
    }
}
