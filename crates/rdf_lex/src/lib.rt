//! Tokens of N-Triples, Turtle, shape maps and ShExC, lent from their source; what their texts stand for; and a
//! document's base and prefixes (RDF 1.1 Turtle, section 6; RDF 1.1 N-Triples, section 7).
#![tactic(auto)]

mod bodies;
mod characters;
mod escapes;
mod kinds;
mod laws;
mod lexed;
mod machine;
mod prefixes;
mod scan;

pub use characters::is_iri_char;
pub use escapes::{LexError, unescape};
pub use kinds::{Kind, Mode};
pub use laws::{
    iri_texts_are_tokens, kinds_are_apart, literal_texts_are_tokens, next_is_one, tokens_are_one,
    tokens_go_on,
};
pub use lexed::{Lexed, Token, next};
pub use prefixes::Prefixes;
