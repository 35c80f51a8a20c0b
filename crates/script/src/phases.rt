//! What a phase calls.
use crate::calls::LaneCalls;
use std::marker::Model;

/// What a phase calls, by lane or from a bag.
#[derive(Drop)]
pub enum Calls {
    /// What the lanes call, from the first. Lanes that aren't there call nothing.
    Lanes(Vec<LaneCalls>),
    /// Calls that belong to no lane beforehand, and how many lanes the script has.
    Bag { lanes: u64, calls: LaneCalls },
}

/// What a phase calls.
#[derive(Drop)]
pub struct PhaseCalls {
    pub calls: Calls,
}

impl Model for PhaseCalls {
    ghost use Rattle.jmodel.specs.history.Schedule.{ScriptPhase};
    ghost use Rattle.script.specs.Phases.{phase_seen};

    ghost Value = { ScriptPhase };

    ghost view = { λ p. phase_seen p.calls };
}
