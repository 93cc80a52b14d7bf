//! Machines in the newer spelling of Map states (Amazon States Language, "Map State"): `Machine::upgrade` makes them.
//!
//! `specs/Laws.antt` has the laws: what an upgraded definition keeps, and that its runs are those of the definition before.
#![tactic(auto)]

mod laws;

pub use laws::{
    an_upgraded_definition_is_accepted, an_upgraded_machine_runs_alike,
    every_upgraded_setup_runs_alike,
};
