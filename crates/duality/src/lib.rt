//! Why a floor is a floor, and why a proof of none is a proof.
//!
//! Each function does nothing and promises a theorem on whole numbers, which callers' proofs can use. The statements stand in specs/.
#![tactic(auto)]

ghost use Rattle.duality.specs.Convex.{SlipSound};
ghost use Rattle.duality.specs.Floor.{FloorSound, SlipFloor, GapSound, GapClosed};
ghost use Rattle.duality.specs.Conditions.{ConditionsTight};
ghost use Rattle.duality.specs.Refutation.{NoneSound};

/// A slip that holds shows that the quadratic form of a symmetric matrix is never negative.
pub fn slip_is_sound()
    ensures { SlipSound }
{}

/// Under a convex cost, the floor of a pair is at most 256 times the cost of every feasible point.
pub fn floor_is_sound()
    ensures { FloorSound }
{}

/// The floor holds wherever a slip does: `slip_is_sound` and `floor_is_sound` in one.
pub fn slip_gives_floor()
    ensures { SlipFloor }
{}

/// No feasible point is cheaper than a given one by more than the gap of that one, divided by 256.
pub fn gap_is_sound()
    ensures { GapSound }
{}

/// A feasible point whose gap is below 256 is optimal.
pub fn closed_gap_is_optimal()
    ensures { GapClosed }
{}

/// A pair that meets the optimality conditions leaves its own point no gap.
pub fn conditions_close_gap()
    ensures { ConditionsTight }
{}

/// Multipliers that refute leave no feasible point.
pub fn refutation_is_sound()
    ensures { NoneSound }
{}
