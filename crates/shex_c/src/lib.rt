//! The programs `shex` and `shextool` as a library for C, over files in memory.
#![tactic(auto)]

ghost use Rattle.std.specs.Prelude.{◌<◌, ◌≡◌, ◌≤◌, ◌⊎◌};
ghost use Rattle.call_parts.specs.Calls.{EndsAs, IsCallStatus, IsCalled};
ghost use Rattle.call_parts.specs.Given.{HasWrongText, HaveOwnNames};
ghost use Rattle.call_parts.specs.Handed.{IsLeft};
ghost use Rattle.shex_run.specs.Endings.{Ends};
ghost use Rattle.shex_tools.specs.Endings.{ToolEnds};

use call_parts::{Call, Reply, Request};
use shex_run::run;
use shex_tools::run_tool;
use std::alloc::Global;

/// Answers a call as `shex` does, and gives its status.
fn shex(alloc: Global, call: &mut Call) -> u8
    ensures ends { EndsAs Ends call.old call.new result }
    ensures statuses { (result < 7) ⊎ (result ≡ 8) }
{
    run(
        alloc,
        call.words.as_slice(),
        &mut call.files,
        &mut call.out,
        &mut call.err,
    )
}

/// Answers a call as `shextool` does, and gives its status.
fn shextool(alloc: Global, call: &mut Call) -> u8
    ensures ends { EndsAs ToolEnds call.old call.new result }
    ensures statuses { (result < 7) ⊎ (result ≡ 8) }
{
    run_tool(
        alloc,
        call.words.as_slice(),
        &mut call.files,
        &mut call.out,
        &mut call.err,
    )
}

/// Answers the words of the request over its files as `shex` does, and gives the status of `shex`.
///
/// What is printed, what is said on the error stream and what the wanted file holds at the end are written to the reply's places,
/// where they have room, and their lengths to its counts; a place that is too short stays as it was. The status is 8 where memory
/// ran out, 9 where a word or a name is not UTF-8, and 10 where two files have one name; then nothing is written, and the counts
/// are 0.
#[unsafe(no_mangle)]
pub extern "C" fn shex_call(alloc: Global, request: &Request<'_>, reply: &mut Reply<'_>) -> u8
    ensures statuses { IsCallStatus result }
    ensures called { result < 7 → IsCalled Ends request.now reply.old reply.new result }
    ensures left { 8 ≤ result → IsLeft reply.old reply.new }
    ensures not_utf8 { result ≡ 9 → HasWrongText request.now }
    ensures twice { result ≡ 10 → ¬ HaveOwnNames request.now.files.now }
{
    reply.clear();
    let mut call = match Call::of(alloc, request) {
        Ok(call) => call,
        Err(error) => return error.status(),
    };
    let status = shex(alloc, &mut call);
    if status < 7 {
        call.hand_over(reply);
    }
    status
}

/// Answers the words of the request over its files as `shextool` does, and gives the status of `shextool`.
///
/// The reply and the statuses above 7 are those of `shex_call`.
#[unsafe(no_mangle)]
pub extern "C" fn shextool_call(alloc: Global, request: &Request<'_>, reply: &mut Reply<'_>) -> u8
    ensures statuses { IsCallStatus result }
    ensures called { result < 7 → IsCalled ToolEnds request.now reply.old reply.new result }
    ensures left { 8 ≤ result → IsLeft reply.old reply.new }
    ensures not_utf8 { result ≡ 9 → HasWrongText request.now }
    ensures twice { result ≡ 10 → ¬ HaveOwnNames request.now.files.now }
{
    reply.clear();
    let mut call = match Call::of(alloc, request) {
        Ok(call) => call,
        Err(error) => return error.status(),
    };
    let status = shextool(alloc, &mut call);
    if status < 7 {
        call.hand_over(reply);
    }
    status
}
