//! A scan for the longest token.

ghost use Rattle.std.specs.Prelude.{◌≡◌, ◌+◌, ◌≤◌, length, None, IfSome};
ghost use Rattle.std.specs.Char.{len_utf8};
ghost use Rattle.std.specs.Str.{chars, IsCharBoundary};
ghost use Rattle.rdf_lex.specs.declared.machine.State.TheVariants.{Start};
ghost use Rattle.rdf_lex.specs.Scan.{scan_from};

use crate::kinds::{Kind, Mode};
use crate::machine::{State, label, step};

/// A number of bytes of a text and the bytes of one more character.
pub fn add_len(len: usize, ch: char, source: &str) -> usize
    requires { len + len_utf8 ch ≤ length source.now }
    ensures { result ≡ len + len_utf8 ch }
{
    // The length of a text tells contracts that it is below 2^64.
    let _whole = source.len();
    len + ch.len_utf8()
}

/// The kind of the longest token at the front, and its number of bytes.
pub fn longest(mode: Mode, source: &str) -> Option<(Kind, usize)>
    ensures scan { result ≡ scan_from mode (chars source.now) Start None 0 }
    ensures boundary { IfSome result (λ x. IsCharBoundary source.now x.1) }
{
    let mut state = State::Start;
    let mut best = None;
    let mut len = 0;
    for ch in source.chars() {
        let Some(next) = step(state, ch) else {
            return best;
        };
        state = next;
        len = add_len(len, ch, source);
        if let Some(kind) = label(mode, state) {
            best = Some((kind, len));
        }
    }
    best
}
