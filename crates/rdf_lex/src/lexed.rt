//! The next token of a text.

ghost use Rattle.std.specs.Prelude.{◌≡◌, ◌+◌, ◌≤◌, length};
ghost use Rattle.std.specs.Str.{chars, IsCharBoundary};
ghost use Rattle.rdf_lex.specs.declared.lexed.Blank.TheVariants.{Between};
ghost use Rattle.rdf_lex.specs.Scan.{between_step, blank_step, blank_from, held, next_of, seen};
ghost use Rattle.rdf_lex.specs.Tokens.{is_white, ends_line, has_blocks, Lexes};

use crate::kinds::{Kind, Mode};
use crate::scan::{add_len, longest};

/// A token: its kind, its text as it stands in the source, and the place of its first byte there.
#[derive(Clone, Copy, Debug, PartialEq, Eq)]
pub struct Token<'a> {
    /// What kind of token it is.
    pub kind: Kind,
    /// Its characters, as they stand in the source.
    pub text: &'a str,
    /// Its place: how many bytes stand before it.
    pub at: u64,
}

/// What comes next in a text.
#[derive(Clone, Copy, Debug, PartialEq, Eq)]
pub enum Lexed<'a> {
    /// A token.
    Token(Token<'a>),
    /// Nothing but white space and comments.
    End,
    /// The place, in bytes, from which on no token begins what is left.
    Bad(u64),
}

fn is_space(mode: Mode, ch: char) -> bool
    ensures { result ≡ is_white mode ch }
{
    match mode {
        Mode::NTriples => matches!(ch, ' ' | '\t'),
        Mode::Turtle | Mode::Map | Mode::Schema => matches!(ch, ' ' | '\t' | '\r' | '\n'),
    }
}

fn ends_comment(ch: char) -> bool
    ensures { result ≡ ends_line ch }
{
    ch == '\r' || ch == '\n'
}

/// A place in white space and comments: between them, in a comment to the end of its line, behind a slash, or in a comment
/// from `/*` to `*/`, there also behind a star. The numbers are of the bytes before the slash.
#[derive(Clone, Copy)]
pub enum Blank {
    /// Between comments.
    Between,
    /// In a comment that goes to the end of its line.
    Line,
    /// Behind a slash.
    Slash(usize),
    /// In a comment that goes to `*/`.
    Block(usize),
    /// In such a comment, behind a star.
    Star(usize),
}

/// Whether the language has comments from `/*` to `*/`.
fn knows_blocks(mode: Mode) -> bool
    ensures { result ≡ has_blocks mode }
{
    match mode {
        Mode::Schema => true,
        Mode::NTriples | Mode::Turtle | Mode::Map => false,
    }
}

/// Behind so many bytes and outside comments, what one more character makes, or None where a token begins.
fn outside(mode: Mode, len: usize, ch: char) -> Option<Blank>
    ensures { result ≡ between_step mode len ch }
{
    if is_space(mode, ch) {
        Some(Blank::Between)
    } else if ch == '#' {
        Some(Blank::Line)
    } else if knows_blocks(mode) && ch == '/' {
        Some(Blank::Slash(len))
    } else {
        None
    }
}

/// Behind so many bytes, what one more character makes, or None where a token begins.
fn next_blank(mode: Mode, before: Blank, len: usize, ch: char) -> Option<Blank>
    ensures { result ≡ blank_step mode before len ch }
{
    match before {
        Blank::Between => outside(mode, len, ch),
        Blank::Line if ends_comment(ch) => outside(mode, len, ch),
        Blank::Line => Some(Blank::Line),
        Blank::Slash(start) if ch == '*' => Some(Blank::Block(start)),
        Blank::Slash(_) => None,
        Blank::Star(_) if ch == '/' => Some(Blank::Between),
        Blank::Block(start) | Blank::Star(start) => match ch {
            '*' => Some(Blank::Star(start)),
            _ => Some(Blank::Block(start)),
        },
    }
}

/// Where white space and comments end, if nothing more of them follows.
fn end_of_blanks(before: Blank, len: usize) -> usize
    ensures { result ≡ held before len }
{
    match before {
        Blank::Between | Blank::Line => len,
        Blank::Slash(start) | Blank::Block(start) | Blank::Star(start) => start,
    }
}

/// The bytes of white space and comments in front.
fn blanks(mode: Mode, source: &str) -> usize
    ensures count { result ≡ blank_from mode (chars source.now) Between 0 }
    ensures boundary { IsCharBoundary source.now result }
{
    let mut before = Blank::Between;
    let mut len = 0;
    for ch in source.chars() {
        let Some(next) = next_blank(mode, before, len, ch) else {
            return end_of_blanks(before, len);
        };
        before = next;
        len = add_len(len, ch, source);
    }
    end_of_blanks(before, len)
}

/// The next token from `at` on, the longest one behind white space and comments, lent from the
/// source (RDF 1.1 Turtle, section 6; RDF 1.1 N-Triples, section 7). A character begins at `at`, or
/// the text ends there.
pub fn next<'a>(source: &'a str, at: u64, mode: Mode) -> Lexed<'a>
    requires { IsCharBoundary source.now at }
    ensures longest { Lexes mode source.entry.now at result }
    ensures scanned { seen result ≡ next_of mode source.entry.now at }
{
    scanned(source, at, mode)
}

#[tactic(auto, unfolding(crate::specs::Scan::next_of))]
fn scanned<'a>(source: &'a str, at: u64, mode: Mode) -> Lexed<'a>
    requires { IsCharBoundary source.now at }
    ensures { seen result ≡ next_of mode source.entry.now at }
{
    let at = at as usize;
    let rest = &source[at..];
    let start = sum_to(at, blanks(mode, rest), source);
    let rest = &source[start..];
    if rest.is_empty() {
        return Lexed::End;
    }
    match longest(mode, rest) {
        Some((kind, len)) => Lexed::Token(Token {
            kind,
            text: &rest[..len],
            at: start as u64,
        }),
        None => Lexed::Bad(start as u64),
    }
}

/// A place behind `at`, which the length of the source bounds.
fn sum_to(at: usize, more: usize, source: &str) -> usize
    requires { at + more ≤ length source.now }
    ensures { result ≡ at + more }
{
    // The length of a text tells contracts that it is below 2^64.
    let _whole = source.len();
    at + more
}
