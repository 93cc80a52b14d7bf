// Laws of paths: each is a contract, over every text and every value.
ghost use Rattle.asl_path.specs.Laws.{HasOneMeaning, HasNoMeaning, HasOneFault, IsThere, LastStays, SameChangesNothing, LeavesTheRest, NeedsTheSamePlace};

/// A path has one meaning: one root and one list of steps. The laws have no code.
pub fn a_path_has_one_meaning()
    // A path spells one root and one list of steps, by which it starts, names a part and puts one.
    ensures meaning { HasOneMeaning }
    // A text that is no path names nothing.
    ensures nothing { HasNoMeaning }
    // A text has one first byte that can't go on at most, and a path has none.
    ensures fault { HasOneFault }
{}

/// Getting and putting by paths agree. The laws have no code.
pub fn reading_and_putting_agree()
    // What was put is there.
    ensures there { IsThere }
    // The last put stays.
    ensures last { LastStays }
    // To put what is there changes nothing.
    ensures same { SameChangesNothing }
    // Paths whose steps part from its own name what they named.
    ensures rest { LeavesTheRest }
    // Whether there is a place doesn't depend on what is put.
    ensures place { NeedsTheSamePlace }
{}
