//! A place among the tokens of a text.

ghost use Rattle.std.specs.Prelude.{◌≡◌, ◌+◌, length};
ghost use Rattle.std.specs.Str.{IsCharBoundary, IsUtf8};
ghost use Rattle.rdf_cursor.specs.Lent.{IsReached, behind_place};

use crate::stops::{Fault, Stop};
use crate::symbols::Symbol;
use rdf_lex::{Lexed, Mode, Token, next};

/// A place among the tokens of a text. What comes next is kept, so that each token is sought once.
#[derive(Drop)]
pub struct Cursor<'a> {
    source: &'a str,
    mode: Mode,
    next: Lexed<'a>,
    ghost utf8: { ∥ IsUtf8 source.now ∥₁ },
    ghost cut: { IsCharBoundary source.now (behind_place source.now next) },
    ghost reached: { ∥ IsReached mode source.now next ∥₁ },
}

/// The place behind a token of a text.
fn end_of(source: &str, token: Token<'_>) -> u64
    requires { IsCharBoundary source.now (token.at + length token.text.now) }
    ensures { result ≡ token.entry.at + length token.entry.text.now }
{
    // The length of a text tells contracts that it is below 2^64.
    let _whole = source.len();
    token.at + token.text.len() as u64
}

impl<'a> Cursor<'a> {
    ghost use Rattle.std.specs.Prelude.{◌≡◌};
    ghost use Rattle.rdf_cursor.specs.Ahead.{next_is};
    ghost use Rattle.rdf_cursor.specs.Readers.{one, finish};
    ghost use Rattle.rdf_cursor.specs.declared.stops.Fault.TheVariants.{Syntax};
    ghost use Rattle.rdf_cursor.specs.Stops.{Gives};
    ghost use Rattle.rdf_cursor.specs.Streams.{stream_from};
    ghost use Rattle.rdf_cursor.specs.Symbols.{is_symbol, is_any, of_symbol};
    ghost use Rattle.rdf_cursor.specs.Lent.{Lends, Stands, behind_next, spelled};
    ghost use Rattle.rdf_cursor.specs.Cursors.{ahead, mode_of, source_of, source_in};

    /// A cursor before the first token of a text.
    pub fn new(source: &'a str, mode: Mode) -> Cursor<'a>
        ensures ahead { ahead result ≡ stream_from mode source.entry.now 0 }
        ensures source { source_in result ≡ record { mode = mode; text = source.entry.now } }
    {
        let next = next(source, 0, mode);
        Cursor { source, mode, next }
    }

    /// The next token, which is not taken; `None` where none is next.
    pub fn peek(&self) -> Option<Token<'a>>
        ensures { Lends (ahead self.now) result }
    {
        match self.next {
            Lexed::Token(token) => Some(token),
            Lexed::End | Lexed::Bad(_) => None,
        }
    }

    /// Whether a token is next.
    pub fn has_next(&self) -> bool
        ensures { result ≡ next_is is_any (ahead self.now) }
    {
        match self.next {
            Lexed::Token(_) => true,
            Lexed::End | Lexed::Bad(_) => false,
        }
    }

    /// Whether the next token is this symbol.
    #[tactic(auto, unfolding(crate::specs::Symbols::is_symbol))]
    pub fn is_at(&self, sought: Symbol) -> bool
        ensures { result ≡ next_is (is_symbol sought) (ahead self.now) }
    {
        match self.next {
            Lexed::Token(token) => Symbol::of(token).is(sought),
            Lexed::End | Lexed::Bad(_) => false,
        }
    }

    /// Takes the next token; where none is next, nothing changes.
    pub fn advance(&mut self)
        ensures ahead { ahead self.new ≡ behind_next (ahead self.old) }
        ensures source { source_in self.new ≡ source_in self.old }
    {
        if let Lexed::Token(token) = self.next {
            self.next = next(self.source, end_of(self.source, token), self.mode);
        }
    }

    /// Takes the next token, which is to be this symbol, and lends it.
    #[tactic(auto, unfolding(crate::specs::Symbols::is_symbol))]
    pub fn take(&mut self, sought: Symbol) -> Result<Token<'a>, Stop>
        ensures gives { Gives spelled result (ahead self.new) (one Syntax (of_symbol sought) (ahead self.old)) }
        ensures source { source_in self.new ≡ source_in self.old }
    {
        match self.next {
            Lexed::Token(token) if Symbol::of(token).is(sought) => {
                self.advance();
                Ok(token)
            }
            Lexed::Token(_) | Lexed::End | Lexed::Bad(_) => Err(Stop::Fault(Fault::Syntax)),
        }
    }

    /// The place of the next token in bytes, that from which on no token begins what is left, or the
    /// length of the text.
    pub fn place(&self) -> u64
        ensures { Stands (mode_of self.now) (source_of self.now) (ahead self.now) result }
    {
        match self.next {
            Lexed::Token(token) => token.at,
            Lexed::End => self.source.len() as u64,
            Lexed::Bad(at) => at,
        }
    }

    /// Whether the text ends here.
    pub fn end(&self) -> Result<(), Stop>
        ensures { Gives (λ x. x) result (ahead self.now) (finish Syntax tt (ahead self.now)) }
    {
        match self.next {
            Lexed::End => Ok(()),
            Lexed::Token(_) | Lexed::Bad(_) => Err(Stop::Fault(Fault::Syntax)),
        }
    }
}
