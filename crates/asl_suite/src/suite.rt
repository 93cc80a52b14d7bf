// What a suite has.
use asl_def::Machine;
use asl_mock::Mocks;
use asl_suite_file::Expectations;

/// A machine, what its tasks answer in the cases of a mock file, and its tests.
pub struct Suite {
    /// The state machine.
    pub machine: Machine,
    /// The mock file.
    pub mocks: Mocks,
    /// The tests.
    pub tests: Expectations,
}

// Written out, so that a caller's proof sees one call and not the drop of each part.
impl Drop for Suite {
    fn drop(self) {
        let Suite {
            machine: _machine,
            mocks: _mocks,
            tests: _tests,
        } = self;
    }
}
