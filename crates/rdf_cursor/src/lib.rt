//! A cursor over the tokens of a text, for the readers of N-Triples, Turtle, shape maps and ShExC, and the laws by which a
//! reader of a grammar is proved.
//!
//! A rule of a grammar is a phrase (`specs/Phrases`), which relates what lies ahead before and behind its tokens, and a
//! reader (`specs/Readers`), which is a function. A function of code is proved to give what its reader gives. Of each
//! reader four things are proved, each by a term of the form of the rule: that it looks no further than the next token
//! (`proofs/Locality`), that it takes a token where it has to (`proofs/Consuming`), that what it reads is what the phrase
//! relates (`proofs/Soundness`), and that it reads whatever the phrase relates (`proofs/Completeness`). Then the place of
//! a fault is one at which no document goes on as the text does (`proofs/Blocking`). None of these knows a kind of token.
#![tactic(auto)]

mod cursor;
mod laws;
mod stops;
mod symbols;

pub use cursor::Cursor;
pub use laws::{faults_block, loops_go_on, streams_are_tokens};
pub use stops::{Fault, Stop};
pub use symbols::Symbol;
