// Laws: each is a contract, over all claims.
ghost use Rattle.std.specs.Prelude.{◌≡◌, List, Option};
ghost use Rattle.asl_def_schema.specs.Claims.{Claim};
ghost use Rattle.asl_def_schema.specs.First.{Found, Answers};
ghost use Rattle.asl_lint_faults.specs.Told.{AreTold, least};

/// The fault that a check answers is, of all faults, the first of the lowest number. The law has no code.
pub fn the_first_fault_is_the_least()
    ensures { (cs : List Claim) (fs : List Found) (first : Option Found) → AreTold cs fs
        → Answers cs first → first ≡ least fs }
{}
