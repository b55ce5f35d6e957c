//! Tokens by their symbols.

ghost use Rattle.std.specs.Prelude.{◌≡◌};
ghost use Rattle.rdf_cursor.specs.Ahead.{next_is};
ghost use Rattle.rdf_cursor.specs.Cursors.{ahead, source_in};
ghost use Rattle.rdf_cursor.specs.Lent.{spelled};
ghost use Rattle.rdf_cursor.specs.Readers.{one};
ghost use Rattle.rdf_cursor.specs.Symbols.{has, is_among, same_symbol};
ghost use Rattle.shexc_constraints.specs.declared.faults.Fault.TheVariants.{Syntax};
ghost use Rattle.shexc_constraints.specs.Stops.{Gives};
ghost use Rattle.shexc_constraints.specs.Symbols.{of_symbol, of_word};

use crate::faults::{Fault, Stop};
use rdf_cursor::{Cursor, Symbol};
use rdf_lex::Token;

/// Takes the next token, which is to be this symbol, and lends it.
pub fn take<'a>(c: &mut Cursor<'a>, sought: Symbol) -> Result<Token<'a>, Stop>
    ensures gives { Gives spelled result (ahead c.new) (one Syntax (of_symbol sought) (ahead c.old)) }
    ensures source { source_in c.new ≡ source_in c.old }
{
    Ok(c.take(sought)?)
}

/// Whether both are one symbol.
fn is_same(other: &Symbol, symbol: Symbol) -> bool
    ensures { result ≡ same_symbol symbol other.now }
{
    symbol.is(*other)
}

/// Whether a symbol is one of these.
pub fn is_one_of(symbol: Symbol, symbols: &[Symbol]) -> bool
    ensures { result ≡ has symbol symbols.now }
{
    symbols.iter().any(|other| is_same(other, symbol))
}

/// Whether the next token is one of these symbols.
#[tactic(auto, unfolding(rdf_cursor::specs::Symbols::is_among))]
pub fn is_at_one(c: &Cursor<'_>, symbols: &[Symbol]) -> bool
    ensures { result ≡ next_is (is_among symbols.now) (ahead c.now) }
{
    match c.peek() {
        Some(token) => is_one_of(Symbol::of(token), symbols),
        None => false,
    }
}

/// Takes the next token, which is to be one of these symbols, and tells which.
#[tactic(auto, unfolding(rdf_cursor::specs::Symbols::is_among))]
pub fn take_one(c: &mut Cursor<'_>, symbols: &[Symbol]) -> Result<Symbol, Stop>
    ensures gives { Gives (λ x. x) result (ahead c.new) (one Syntax (of_word symbols.now) (ahead c.old)) }
    ensures source { source_in c.new ≡ source_in c.old }
{
    let Some(token) = c.peek() else {
        return Err(Stop::Fault(Fault::Syntax));
    };
    let symbol = Symbol::of(token);
    if !is_one_of(symbol, symbols) {
        return Err(Stop::Fault(Fault::Syntax));
    }
    c.advance();
    Ok(symbol)
}
