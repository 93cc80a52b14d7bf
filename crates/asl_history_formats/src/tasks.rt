// What is said of Tasks beside the events.
ghost use Rattle.std.specs.Prelude.{◌≡◌, List, ℕ};
ghost use Rattle.asl_history_formats.specs.Tasks.{TaskTable};

/// How long a Task may take, in seconds.
#[derive(Clone, Copy, Debug, PartialEq, Eq)]
pub struct Limits {
    /// From its start to its end, where a number says so (`TimeoutSeconds`).
    pub timeout: Option<u32>,
    /// From one heartbeat to the next, where a number says so (`HeartbeatSeconds`).
    pub heartbeat: Option<u32>,
}

/// What a definition says of its Tasks, by the names of their states.
pub trait Tasks {
    ghost table: { Self → TaskTable };

    /// The resource of the Task of this name; empty where there is none.
    fn resource(&self, name: &str) -> &str
        ensures { result.now ≡ (table self.now).resource name.now };

    /// How long the Task of this name may take; without limits where there is none.
    fn limits(&self, name: &str) -> Limits
        ensures { result ≡ (table self.now).limits name.now };

    /// The region in which Tasks are called, as `us-east-1`.
    fn region(&self) -> &str
        ensures { result.now ≡ (table self.now).region };
}
