// In which order branches stand, and where a place leads.
ghost use Rattle.std.specs.Prelude.{◌≡◌, ◌∷◌, [], List, ℕ, Some, map, slice_get};
ghost use Rattle.asl_run_branches.specs.Branches.{record_at};
ghost use Rattle.asl_run_branches.specs.Trees.{Family, branches_of, below_of};
ghost use Rattle.asl_run_branches.specs.Orders.{AreInOrder, record_in};

use crate::frame::Frame;

/// A walk down a tree by the numbers of a place ends at the frame of the branch that runs there. The law has no code.
pub fn a_walk_finds_the_branch()
    // At a frame's own place its branch runs.
    ensures here { (f : Family) → record_at [] (branches_of f) ≡ Some f.head.current }
    // A place under it leads on from the child of its first number.
    ensures below { (f : Family) (children : List Family) (n : ℕ) (place : List ℕ)
        → f.below ≡ below_of 0 children
        → record_at (n ∷ place) (branches_of f) ≡ record_in place (slice_get children n) }
{}

impl Frame {
    /// Its branches are listed in the order of their places, and no place is there twice. It does nothing: it is there for what its
    /// contract says of every frame.
    pub fn is_in_order(&self)
        ensures { AreInOrder (map (λ b. b.place) (branches_of self.now)) }
    {
        for child in &self.children {
            child.get().is_in_order();
        }
    }
}
