// Copies of which no event tells.
ghost use Rattle.std.specs.Prelude.{◌≡◌, true, IfOk};
ghost use Rattle.asl_run_branches.specs.Bare.{bare_family};

use crate::frame::Frame;
use crate::offspring::{failed_of, undone_of};
use crate::resting::none_resting;
use crate::shared::SharedFrame;
use std::alloc::{AllocError, Global};

impl Frame {
    /// Whether no event was told of the branch and of those under it, if this is true.
    fn is_bare(&self) -> bool
        ensures { result ≡ true → bare_family self.now ≡ self.now }
    {
        if self.at > 0 {
            return false;
        }
        if self.under > 0 {
            return false;
        }
        for child in &self.children {
            if !child.get().is_bare() {
                return false;
            }
        }
        true
    }

    /// The same frame of which no event was told. It shares the frames under it of which none was told anyway. The error is that memory
    /// ran out.
    pub fn bare_copy(&self, alloc: Global) -> Result<Frame, AllocError>
        ensures { IfOk result (λ f. f ≡ bare_family self.now) }
    {
        let mut children = Vec::with_capacity(alloc, self.children.len())?;
        for child in &self.children {
            let child = if child.get().is_bare() {
                child.try_clone()?
            } else {
                SharedFrame::new(alloc, child.get().bare_copy(alloc)?)?
            };
            children.push(child)?;
        }
        let place = self.place.try_clone()?;
        let held = self.held.try_clone(alloc)?;
        let undone = undone_of(&children);
        let failed = failed_of(&children);
        Ok(Frame {
            place,
            held,
            at: 0,
            under: 0,
            children,
            undone,
            failed,
            resting: none_resting(),
        })
    }
}
