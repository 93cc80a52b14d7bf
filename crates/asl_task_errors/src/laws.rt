// Laws: each is a contract, over every value.
ghost use Rattle.asl_task_errors.specs.Laws.{AnyErrorIsHandledLikeOne, TasksAreToldByTheirHolders};

/// Where no two states of a definition have one name, what is around a Task are the states that hold it, the innermost first. The law has no
/// code.
pub fn tasks_are_told_by_their_holders()
    ensures { TasksAreToldByTheirHolders }
{}

/// Whatever error a Task fails with but `States.Timeout`, the retriers and catchers that see it handle it like one that is told, unless it is one
/// that nothing names, or a list names `Unnamed`. The law has no code.
pub fn any_error_is_handled_like_one()
    ensures { AnyErrorIsHandledLikeOne }
{}
