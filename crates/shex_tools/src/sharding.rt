//! What answers a call about data in shards.

ghost use Rattle.std.specs.Prelude.{◌≡◌, ◌<◌, IfErr, IfOk, OnOk};
ghost use Rattle.shard_answers.specs.Answers.{IsFit};
ghost use Rattle.shex_tools.specs.Results.{IsAnswer};
ghost use Rattle.shex_tools.specs.Stopping.{Explains, FaultsAs};
ghost use Rattle.tool_words.specs.Asked.{of_shards};
ghost use Rattle.tool_words.specs.Lent.{shard_call_of};

use crate::stop::{Stop, shard_stop};
use call_ends::Response;
use shard_answers::answer;
use shex_io::Files;
use std::alloc::Global;
use tool_words::ShardCall;

/// What answers a call about data in shards.
pub fn answer_shards<F: Files>(
    alloc: Global,
    files: &mut F,
    call: &ShardCall<'_>,
) -> Result<Response, Stop>
    requires { IsFit (shard_call_of call.now) }
    ensures answer { IfOk result (λ r. IsAnswer (F.told files.old) (of_shards (shard_call_of call.now)) r.status r.text.items r.notes.items) }
    ensures low { IfOk result (λ r. r.status < 7) }
    ensures cause { IfErr result (Explains (F.told files.old) (of_shards (shard_call_of call.now))) }
    ensures faults { IfErr result (FaultsAs (of_shards (shard_call_of call.now)) (F.faults files.old) (F.faults files.new) (F.blame files.new) (F.act files.new)) }
    ensures faults_stay { OnOk result (F.faults files.new ≡ F.faults files.old) }
    ensures told_stays { F.told files.new ≡ F.told files.old }
{
    match answer(alloc, files, call) {
        Ok(response) => Ok(response),
        Err(error) => Err(shard_stop(error)),
    }
}
