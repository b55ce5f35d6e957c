//! The laws of calls about data in shards, for callers' proofs: the contract of the function is the law, and it does nothing when called.

ghost use Rattle.shard_answers.specs.Laws.{AnsweredIsNotLeft, RefusedIsNotAbsent};

use shex_inputs::{inputs_are_one, schemas_are_not_left};

/// Where contents are told, a call is answered, or a file of it is refused or absent, and not two of these.
pub fn calls_end_in_one_way()
    ensures answered { AnsweredIsNotLeft }
    ensures refused { RefusedIsNotAbsent }
{
    inputs_are_one();
    schemas_are_not_left();
}
