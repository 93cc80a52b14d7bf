// Laws of what no text reads.
ghost use Rattle.asl_step_reads.specs.Laws.{ContextPathsRead, InputPathsDont, CallsReadByTrees, StatesReadNoMore, UnmentionedIsUnread, PathsAgree, TreesAgree, CallsAgree, TemplatesAgree, StatesAgree, CountsDontMatter, OthersDontCount, MomentsDontMatter};

/// What a text reads of the Context Object is said by the path or the call that it spells. The laws have no code.
pub fn a_text_reads_what_it_spells()
    // A path of the Context Object reads what its steps meet,
    ensures context { ContextPathsRead }
    // one of the input nothing,
    ensures input { InputPathsDont }
    // and a call what the paths in it read.
    ensures calls { CallsReadByTrees }
    // A state of a definition reads no more than the definition.
    ensures states { StatesReadNoMore }
    // What no text may read by its bytes, no text reads.
    ensures bytes { UnmentionedIsUnread }
{}

/// What doesn't read the part of the Context Object at a chain of keys gives the same in any two that are equal but for that part.
pub fn a_text_gives_by_what_it_reads()
    // A path names the same;
    ensures paths { PathsAgree }
    // a call has the same value, by its tree
    ensures trees { TreesAgree }
    // and by its text;
    ensures calls { CallsAgree }
    // and a template gives the same.
    ensures templates { TemplatesAgree }
{}

/// The same of a state none of whose texts reads that part: of what it takes and gives.
pub fn a_state_gives_by_what_it_reads()
    ensures gives { StatesAgree }
{}

/// How often a state was invoked before matters to its step by the token that a text of it reads, and by the test case's answer.
pub fn a_step_counts_where_it_reads_the_count()
    // Where neither differs, the step does the same;
    ensures counts { CountsDontMatter }
    // and so does each step of a state that invokes no service.
    ensures others { OthersDontCount }
{}

/// When a step is taken, and when its state was entered, matters to what it does by the texts that read the latter alone: without such
/// texts it differs in moments only, those of the record that it leaves.
pub fn a_step_hangs_on_the_clock_where_it_reads_it()
    ensures moments { MomentsDontMatter }
{}
