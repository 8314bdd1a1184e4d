//! What the station promises, over whole histories of calls. The function only carries its contract.
ghost use Rattle.station.specs.Histories.{ContractLine};

use number::Number;

/// No party's entry sways another's figure unless the policy pairs the two: of any two histories from
/// openings over one admitted sheet, strike the calls of the seats that may not flow to b; if what is
/// left is alike, b is told the same. And no run is stuck.
pub fn seats_are_unswayed<K: Number>()
    ensures { ContractLine K.Number.kind }
{}
