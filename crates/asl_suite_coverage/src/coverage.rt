// How much tests cover.
ghost use Rattle.std.specs.Prelude.{◌≡◌, IfOk, OnOk, OnErr, map, option_map, string_bytes};
ghost use Rattle.asl_json.specs.View.{data_of};
ghost use Rattle.asl_suite_coverage.specs.Covered.{run_spots};
ghost use Rattle.asl_suite_coverage.specs.Listed.{all_points};
ghost use Rattle.asl_suite_coverage.specs.Points.{IsMore, with_spots, percent_of, coverage_text};
ghost use Rattle.asl_suite_coverage.specs.Views.{points_of, mocks_of};

use crate::listing::points_in;
use crate::marking::cover_all;
use crate::observing::seen_in;
use crate::point::Point;
use crate::reporting::{percent_of, text_of};
use asl_def::Machine;
use asl_json::Json;
use asl_run_input::{Setup, StepAt};
use std::alloc::{AllocError, Global};

/// How much of a definition and of a mock file tests cover so far: the points that can be covered, in document order, those of the definition,
/// then those of the mock file.
pub struct Coverage {
    points: Vec<Point>,
    mocks: Json,
}

// Written out, so that a caller's proof sees one call and not the drop of each part.
impl Drop for Coverage {
    fn drop(self) {
        let Coverage {
            points: _points,
            mocks: _mocks,
        } = self;
    }
}

impl Coverage {
    /// What tests of a machine with this mock file can cover, of which nothing is covered yet. The error is that memory ran out.
    pub fn new(alloc: Global, machine: &Machine, mocks: Json) -> Result<Coverage, AllocError>
        ensures points { IfOk result (λ c. points_of c ≡ all_points machine.now (data_of mocks)) }
        ensures mocks { IfOk result (λ c. mocks_of c ≡ data_of mocks) }
    {
        let definition = machine.json(alloc)?;
        let points = points_in(alloc, &definition, &mocks)?;
        Ok(Coverage { points, mocks })
    }

    /// Runs an execution of the machine, as a test does: it takes these steps; without them, what comes next is stepped, at most 10,000 times.
    /// What it covers is covered from now on. The setup has the case of this name; it is empty where none was chosen. The error is that memory
    /// ran out, and nothing changed.
    pub fn run(
        &mut self,
        alloc: Global,
        setup: Setup,
        steps: Option<&[StepAt]>,
        case: &str,
    ) -> Result<(), AllocError>
        // What its steps cover is covered, and nothing else is that wasn't before.
        ensures exact { OnOk result (points_of self.new
            ≡ map (with_spots (run_spots (mocks_of self.old) case.now setup
            (option_map (λ s. s.now) steps.entry))) (points_of self.old)) }
        ensures ok { OnOk result (IsMore (points_of self.old) (points_of self.new)) }
        ensures mocks { mocks_of self.new ≡ mocks_of self.old }
        ensures err { OnErr result (self.new ≡ self.old) }
    {
        let seen = seen_in(alloc, &self.mocks, setup, steps, case)?;
        cover_all(&mut self.points, &seen);
        Ok(())
    }

    /// The points that can be covered, in order.
    pub fn points(&self) -> &[Point]
        ensures { result.now ≡ points_of self.now }
    {
        &self.points
    }

    /// The whole percent of the points that are covered, rounded down; 100 where there are none.
    pub fn percent(&self) -> u32
        ensures { result ≡ percent_of (points_of self.now) }
    {
        percent_of(&self.points)
    }

    /// What is told: how many points are covered, and a line for each that isn't. The error is that memory ran out.
    pub fn text(&self, alloc: Global) -> Result<String, AllocError>
        ensures { IfOk result (λ t. string_bytes t ≡ coverage_text (points_of self.now)) }
    {
        text_of(alloc, &self.points)
    }
}
