//! What is due for a call about data in shards.

ghost use Rattle.std.specs.Prelude.{◌≡◌, ◌<◌, []};
ghost use Rattle.std.specs.Option.{option_map};
ghost use Rattle.shard_answers.specs.Answers.{IsFound};

use call_ends::Response;
use std::alloc::Global;

/// A text is due, and nothing is noted.
pub fn told(alloc: Global, text: Vec<u8>) -> Response
    ensures status { result.status ≡ 0 }
    ensures text { result.text.items ≡ text.items }
    ensures notes { result.notes.items ≡ [] }
{
    Response {
        status: 0,
        text,
        notes: Vec::new(alloc),
    }
}

/// What is due where a shard lacks a line, or none does.
pub fn found(alloc: Global, lacking: Option<Vec<u8>>) -> Response
    ensures found { IsFound (option_map (λ v. v.items) lacking) result.status result.text.items }
    ensures low { result.status < 7 }
    ensures notes { result.notes.items ≡ [] }
{
    match lacking {
        Some(text) => Response {
            status: 1,
            text,
            notes: Vec::new(alloc),
        },
        None => told(alloc, Vec::new(alloc)),
    }
}
