//! Examples worked through by the definitions, and the contract line read for one sheet and one policy.
//! Each function only carries its contract.
#![tactic(auto)]

ghost use Rattle.worked_examples.specs.Examples.{WorkedThrough};
ghost use Rattle.worked_examples.specs.Line.{Seat0DoesNotSwaySeat2};

/// Eight examples: four sheets held against a policy, a run with enough fuel and one with too little, a
/// trial that gets stuck, and sums in millimetres at the end of their range.
pub fn worked_through()
    ensures { WorkedThrough }
{}

/// The contract line of the worked sheet: 0 may flow to 1 and 1 to 2, and nothing that seat 0 does sways
/// what seat 2 is told, although a formula passes on what seat 1 posts.
pub fn seat_0_does_not_sway_seat_2()
    ensures { Seat0DoesNotSwaySeat2 }
{}
