//! Sinks of bytes.

ghost use Rattle.std.specs.Prelude.{ℕ, List, Option, ◌≡◌, ◌≢◌, ◌≤◌, ◌<◌, length, take, IfOk, OnOk, OnErr};
ghost use Rattle.shex_io.specs.Faults.{Rose};
ghost use Rattle.shex_io.specs.Sinks.{Gains, GainsPrefix};

use thiserror::Error;

/// Why a sink took nothing.
#[derive(Clone, Copy, Debug, Drop, PartialEq, Eq, Error)]
pub enum SinkError {
    /// The outside refused; the count of faults rose.
    #[error("Failed")]
    Failed,
    /// Memory was refused.
    #[error("Memory")]
    Memory,
}

/// Something that takes bytes in order.
pub trait Sink {
    /// The bytes that it has got, where this is told.
    ghost got: { Self → Option (List ℕ) };

    /// How many calls failed.
    ghost faults: { Self → ℕ };

    /// Takes the first bytes of a piece, and says how many.
    fn put(&mut self, piece: &[u8]) -> Result<u64, SinkError>
        requires { 0 < length piece.now }
        ensures some { IfOk result (λ count. 0 < count) }
        ensures within { IfOk result (λ count. count ≤ length piece.now) }
        ensures gains { IfOk result
            (λ count. Gains (got self.old) (got self.new) (take count piece.now)) }
        ensures refused { OnErr result (got self.new ≡ got self.old) }

        // `Failed` comes only where a fault rose, and alone changes the count.
        ensures failed { result ≡ Err SinkError.Failed → Rose (faults self.old) (faults self.new) }
        ensures never_falls { faults self.old ≤ faults self.new }
        ensures faults_stay { result ≢ Err SinkError.Failed → faults self.new ≡ faults self.old };
}

/// Puts all bytes, piece by piece.
///
/// A refusal is that of a `put`; the sink has got the pieces before.
pub fn put_all<S: Sink>(sink: &mut S, bytes: &[u8]) -> Result<(), SinkError>
    ensures all { OnOk result (Gains (S.got sink.old) (S.got sink.new) bytes.now) }
    ensures part { OnErr result (GainsPrefix (S.got sink.old) (S.got sink.new) bytes.now) }
    ensures failed { result ≡ Err SinkError.Failed → Rose (S.faults sink.old) (S.faults sink.new) }
    ensures never_falls { S.faults sink.old ≤ S.faults sink.new }
    ensures faults_stay { result ≢ Err SinkError.Failed → S.faults sink.new ≡ S.faults sink.old }
{
    let mut at = 0;
    while at < bytes.len() {
        let taken = sink.put(&bytes[at..])?;
        at += taken as usize;
    }
    Ok(())
}
