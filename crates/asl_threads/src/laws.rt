// Laws of shared runs.
ghost use Rattle.asl_threads.specs.Laws.{StepsAreOneList, StepsOnlyAdd, CommandsAreCompared, RepliesAreCompared, RecordsAreCompared};
ghost use denote.Param.Send.{IsSend, IsSync};
ghost use Rattle.core.specs.contracts.sync.Mutex as lock_row;
ghost use Rattle.asl_threads.specs.contracts.shared.Shared as shared_row;
ghost use Rattle.asl_threads.specs.contracts.run.Run as run_row;
ghost use Rattle.asl_threads.specs.contracts.seat.Seat as seat_row;
ghost use Rattle.asl_threads.specs.contracts.closing.RunRecord as record_row;
ghost use Rattle.asl_threads.specs.contracts.closing.CloseFault as fault_row;

/// A closed run in which no breakpoint was set and nothing was taken back is the run of one list of steps, over all records, whatever else
/// was told in between, as Show and Resume: its world is that of the list, and each reply is that of its command in the world of the steps
/// before it. The list holds the steps of each seat once, in its order. The law has no code.
pub fn steps_of_all_threads_are_one_list()
    ensures { StepsAreOneList }
{}

/// Steps put events behind those that were told, over all worlds and lists of steps: a history that was read stays a beginning of the
/// history. The law has no code.
pub fn steps_only_add_events()
    ensures { StepsOnlyAdd }
{}

/// `==` of commands, of replies and of what a branch is doing says whether two are one as data. The law has no code.
pub fn commands_and_replies_are_compared_as_data()
    ensures commands { CommandsAreCompared }
    ensures replies { RepliesAreCompared }
    ensures records { RecordsAreCompared }
{}

/// Threads may share a run by reference, and a run, a seat, a record and a fault of closing may be moved to another thread. The law has no
/// code.
pub fn runs_and_seats_cross_threads()
    ensures lent { IsSync (run_row.the_row (lock_row.the_row shared_row.the_row)) }
    ensures run { IsSend (run_row.the_row (lock_row.the_row shared_row.the_row)) }
    ensures seat { IsSend seat_row.the_row }
    ensures record { IsSend record_row.the_row }
    ensures fault { IsSend (fault_row.the_row (lock_row.the_row shared_row.the_row)) }
{}
