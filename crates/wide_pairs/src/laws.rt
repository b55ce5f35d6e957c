//! The law of wide pairs, for callers' proofs: its contract is the law, and it does nothing when called.

ghost use Rattle.wide_pairs.specs.Laws.{NoneIsWide};

use schema_tree::laws::width_is_one;

/// Where there is no line for a wide pair, the Width of each pair is within the budget.
pub fn none_is_wide()
    ensures { NoneIsWide }
{
    width_is_one();
}
