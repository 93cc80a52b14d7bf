// Laws: each is a contract, over every value.
ghost use Rattle.asl_def_canonical_laws.specs.Laws.{CanonicalIsAccepted, CanonicalStays, CanonicalIsNoLonger, CanonicalIsNoDeeper, CanonicalKeysDiffer};

/// What the canonical form of a definition keeps. The first law assumes that no object has a key twice, and the last
/// one gives it; `asl_json::every_value_is_sound` says it of every value. The laws have no code.
pub fn the_canonical_form_is_accepted()
    // That of a definition without faults has none.
    ensures accepted { CanonicalIsAccepted }
    // It is its own canonical form.
    ensures stays { CanonicalStays }
    // Its text is no longer, and it is no deeper.
    ensures no_longer { CanonicalIsNoLonger }
    ensures no_deeper { CanonicalIsNoDeeper }
    // No object in it has a key twice.
    ensures keys { CanonicalKeysDiffer }
{}
