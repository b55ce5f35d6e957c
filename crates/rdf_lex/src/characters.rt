//! Sets of characters (RDF 1.1 Turtle, section 6.5).

ghost use Rattle.std.specs.Prelude.{◌≡◌};
ghost use Rattle.rdf_lex.specs.Characters.{Only, has, digit, letter, letter_or_digit, hexadecimal, name_base, name_char, local_start, local_char, label_start, local_escaped, text_escaped, iri_char, short_char, long_char, line_end, turtle_mark, brace, schema_mark, pattern_start, pattern_char, flag, any_char};
ghost use Rattle.rdf_lex.specs.Machine.{mark_of};

use crate::machine::Quote;

/// 0 to 9.
#[tactic(auto, unfolding(crate::specs::Characters::digit))]
pub fn is_digit(ch: char) -> bool
    ensures { result ≡ has digit ch }
{
    matches!(ch, '0'..='9')
}

/// A to Z and a to z.
#[tactic(auto, unfolding(crate::specs::Characters::letter))]
pub fn is_letter(ch: char) -> bool
    ensures { result ≡ has letter ch }
{
    matches!(ch, 'A'..='Z' | 'a'..='z')
}

/// A to Z, a to z and 0 to 9.
#[tactic(auto, unfolding(crate::specs::Characters::letter_or_digit))]
pub fn is_letter_or_digit(ch: char) -> bool
    ensures { result ≡ has letter_or_digit ch }
{
    matches!(ch, '0'..='9' | 'A'..='Z' | 'a'..='z')
}

/// HEX ([171s]).
#[tactic(auto, unfolding(crate::specs::Characters::hexadecimal))]
pub fn is_hexadecimal(ch: char) -> bool
    ensures { result ≡ has hexadecimal ch }
{
    matches!(ch, '0'..='9' | 'A'..='F' | 'a'..='f')
}

/// PN_CHARS_BASE ([163s]).
#[tactic(auto, unfolding(crate::specs::Characters::name_base))]
pub fn is_name_base(ch: char) -> bool
    ensures { result ≡ has name_base ch }
{
    matches!(ch, 'A'..='Z' | 'a'..='z' | '\u{C0}'..='\u{D6}' | '\u{D8}'..='\u{F6}' | '\u{F8}'..='\u{2FF}'
        | '\u{370}'..='\u{37D}' | '\u{37F}'..='\u{1FFF}' | '\u{200C}'..='\u{200D}' | '\u{2070}'..='\u{218F}'
        | '\u{2C00}'..='\u{2FEF}' | '\u{3001}'..='\u{D7FF}' | '\u{F900}'..='\u{FDCF}' | '\u{FDF0}'..='\u{FFFD}'
        | '\u{10000}'..='\u{EFFFF}')
}

/// What a label of a blank node may begin with.
#[tactic(auto, unfolding(crate::specs::Characters::label_start, crate::specs::Characters::name_base))]
pub fn is_label_start(ch: char) -> bool
    ensures { result ≡ has label_start ch }
{
    is_name_base(ch) || matches!(ch, '_' | '0'..='9')
}

/// PN_CHARS ([166s]).
#[tactic(auto, unfolding(crate::specs::Characters::name_char, crate::specs::Characters::name_base))]
pub fn is_name_char(ch: char) -> bool
    ensures { result ≡ has name_char ch }
{
    is_name_base(ch)
        || matches!(ch, '_' | '-' | '0'..='9' | '\u{B7}' | '\u{300}'..='\u{36F}' | '\u{203F}'..='\u{2040}')
}

/// What a local name may begin with as it is.
#[tactic(auto, unfolding(crate::specs::Characters::local_start, crate::specs::Characters::name_base))]
pub fn is_local_start(ch: char) -> bool
    ensures { result ≡ has local_start ch }
{
    is_name_base(ch) || matches!(ch, '_' | ':' | '0'..='9')
}

/// What may stand in a local name as it is, a dot left out.
#[tactic(auto, unfolding(crate::specs::Characters::local_char, crate::specs::Characters::name_char))]
pub fn is_local_char(ch: char) -> bool
    ensures { result ≡ has local_char ch }
{
    ch == ':' || is_name_char(ch)
}

/// PN_LOCAL_ESC, behind its backslash ([172s]).
#[tactic(auto, unfolding(crate::specs::Characters::local_escaped))]
pub fn is_local_escaped(ch: char) -> bool
    ensures { result ≡ has local_escaped ch }
{
    matches!(
        ch,
        '_' | '~'
            | '.'
            | '-'
            | '!'
            | '$'
            | '&'
            | '\''
            | '('
            | ')'
            | '*'
            | '+'
            | ','
            | ';'
            | '='
            | '/'
            | '?'
            | '#'
            | '@'
            | '%'
    )
}

/// ECHAR, behind its backslash ([159s]).
#[tactic(auto, unfolding(crate::specs::Characters::text_escaped))]
pub fn is_text_escaped(ch: char) -> bool
    ensures { result ≡ has text_escaped ch }
{
    matches!(ch, 't' | 'b' | 'n' | 'r' | 'f' | '"' | '\'' | '\\')
}

/// Whether a character may stand in an IRI as it is (RDF 1.1 Turtle, section 6.5, IRIREF).
#[tactic(auto, unfolding(crate::specs::Characters::iri_char))]
pub fn is_iri_char(ch: char) -> bool
    ensures { result ≡ has iri_char ch }
{
    !matches!(
        ch,
        '\0'..=' ' | '<' | '>' | '"' | '{' | '}' | '|' | '^' | '`' | '\\'
    )
}

/// The character of a quotation mark.
fn mark_char(quote: Quote) -> char
    ensures { result ≡ mark_of quote }
{
    match quote {
        Quote::Single => '\'',
        Quote::Double => '"',
    }
}

/// What stands in a text on one line as it is ([22], [23]).
#[tactic(auto, unfolding(crate::specs::Characters::short_char))]
pub fn is_short_char(quote: Quote, ch: char) -> bool
    ensures { result ≡ has (short_char (mark_of quote)) ch }
{
    !(ch == mark_char(quote) || matches!(ch, '\\' | '\n' | '\r'))
}

/// What stands in a text on many lines as it is ([24], [25]).
#[tactic(auto, unfolding(crate::specs::Characters::long_char))]
pub fn is_long_char(quote: Quote, ch: char) -> bool
    ensures { result ≡ has (long_char (mark_of quote)) ch }
{
    !(ch == mark_char(quote) || ch == '\\')
}

/// The quotation mark itself.
pub fn is_mark(quote: Quote, ch: char) -> bool
    ensures { result ≡ has (Only (mark_of quote)) ch }
{
    ch == mark_char(quote)
}

/// CR or LF.
#[tactic(auto, unfolding(crate::specs::Characters::line_end))]
pub fn is_line_end(ch: char) -> bool
    ensures { result ≡ has line_end ch }
{
    matches!(ch, '\r' | '\n')
}

/// A mark that Turtle and ShExC have.
#[tactic(auto, unfolding(crate::specs::Characters::turtle_mark))]
pub fn is_turtle_mark(ch: char) -> bool
    ensures { result ≡ has turtle_mark ch }
{
    matches!(ch, '(' | ')' | ';' | '[' | ']')
}

/// A brace.
#[tactic(auto, unfolding(crate::specs::Characters::brace))]
pub fn is_brace(ch: char) -> bool
    ensures { result ≡ has brace ch }
{
    matches!(ch, '{' | '}')
}

/// A mark that only ShExC has.
#[tactic(auto, unfolding(crate::specs::Characters::schema_mark))]
pub fn is_schema_mark(ch: char) -> bool
    ensures { result ≡ has schema_mark ch }
{
    matches!(ch, '|' | '~' | '=' | '$' | '&' | '*' | '?' | '%')
}

/// What a pattern may begin with as it is.
#[tactic(auto, unfolding(crate::specs::Characters::pattern_start))]
pub fn is_pattern_start(ch: char) -> bool
    ensures { result ≡ has pattern_start ch }
{
    !matches!(ch, '*' | '/' | '\\' | '\n' | '\r')
}

/// What stands in a pattern as it is.
#[tactic(auto, unfolding(crate::specs::Characters::pattern_char))]
pub fn is_pattern_char(ch: char) -> bool
    ensures { result ≡ has pattern_char ch }
{
    !matches!(ch, '/' | '\\' | '\n' | '\r')
}

/// A flag of a pattern.
#[tactic(auto, unfolding(crate::specs::Characters::flag))]
pub fn is_flag(ch: char) -> bool
    ensures { result ≡ has flag ch }
{
    matches!(ch, 'a'..='z')
}
