//! Laws of evaluation, for every number kind. A function here carries a theorem in its contract.
ghost use Rattle.evaluation.specs.BigStep.{Deterministic};
ghost use Rattle.evaluation.specs.Correspondence.{DoneExactly, NumbersExactly, RunsDoneExactly};
ghost use Rattle.evaluation.specs.Fuel.{FuelSettles, RunsCounted, RunsSettle, StepsCounted};

use number::Number;

/// Steps never fall, never pass the fuel, and are as many as the fuel where the fuel is spent.
pub fn steps_are_counted<K: Number>()
    ensures evaluations { StepsCounted K.Number.kind }
    ensures runs { RunsCounted K.Number.kind }
{}

/// More fuel does not change what did not spend its fuel.
pub fn fuel_settles<K: Number>()
    ensures evaluations { FuelSettles K.Number.kind }
    ensures runs { RunsSettle K.Number.kind }
{}

/// The big-step relation derives at most one value and one store.
pub fn deterministic<K: Number>()
    ensures { Deterministic K.Number.kind }
{}

/// An evaluation is done exactly when the big-step relation derives its value and its store within the limits.
pub fn done_exactly<K: Number>()
    ensures evaluations { DoneExactly K.Number.kind }
    ensures runs { RunsDoneExactly K.Number.kind }
    ensures numbers { NumbersExactly K.Number.kind }
{}
