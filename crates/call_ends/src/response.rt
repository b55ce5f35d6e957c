//! What answers a call.

ghost use Rattle.std.specs.Prelude.{◌≡◌, ◌<◌};
ghost use Rattle.call_ends.specs.Statuses.{IsAnswering, status_by};

use program_ends::print_both;
use shex_io::Sink;

/// The status of an answer: 4 where something in it is left undecided, and else 0.
#[tactic(auto, unfolding(crate::specs::Statuses::status_by))]
pub fn status_of(undecided: bool) -> u8
    ensures status { result ≡ status_by undecided }
    ensures answering { IsAnswering result }
    ensures low { result < 7 }
{
    if undecided { 4 } else { 0 }
}

/// A text that is due to the output, the notes that are due to the error stream behind it, and the status where both are printed.
#[derive(Drop)]
pub struct Response {
    /// The status.
    pub status: u8,
    /// The text.
    pub text: Vec<u8>,
    /// The notes: what is said of that which is left undecided.
    pub notes: Vec<u8>,
}

impl Response {
    ghost use Rattle.std.specs.Prelude.{◌<◌};
    ghost use Rattle.program_ends.specs.Printing.{PrintsBoth, sink_seen};

    /// Prints the text to the output and then the notes to the error stream, and gives the status, or 7 where a sink failed and 8
    /// where memory ran out before both were printed whole.
    pub fn print<O: Sink, E: Sink>(&self, out: &mut O, err: &mut E) -> u8
        requires { self.now.status < 7 }
        ensures { PrintsBoth
            (sink_seen O.got O.faults out.old out.new)
            (sink_seen E.got E.faults err.old err.new)
            self.now.text.items self.now.notes.items self.now.status result }
    {
        print_both(
            self.text.as_slice(),
            self.notes.as_slice(),
            self.status,
            out,
            err,
        )
    }
}
