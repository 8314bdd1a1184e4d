//! Worked examples, by computation of the definitions. Each function only carries its contract.
ghost use Rattle.evaluator.specs.Examples.{NumberApplied, «Copied», CopiedShort};

/// The number 5 applied to the number 5 is stuck at the application, after 3 steps.
pub fn number_applied_to_a_number()
    ensures { NumberApplied }
{}

/// Four steps set channel 1 to the 250 of channel 0; with fuel for three the run stops and keeps nothing.
pub fn fuel_for_a_copy()
    ensures enough { Copied }
    ensures short { CopiedShort }
{}
