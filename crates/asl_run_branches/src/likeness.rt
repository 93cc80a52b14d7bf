// Whether the branches of two trees are the same.
ghost use Rattle.std.specs.Prelude.{◌≡◌, true};
ghost use Rattle.asl_run_branches.specs.Trees.{branches_of};

use crate::frame::Frame;

impl Frame {
    /// Whether the branches are at the same places and are doing the same, if this is true.
    pub fn is_alike(&self, other: &Frame) -> bool
        ensures { result ≡ true → branches_of self.now ≡ branches_of other.now }
    {
        if self.held != other.held {
            return false;
        }
        if self.children.len() != other.children.len() {
            return false;
        }
        for number in 0..self.children.len() {
            let child = self.children[number].get();
            if !child.is_alike(other.children[number].get()) {
                return false;
            }
        }
        true
    }
}
