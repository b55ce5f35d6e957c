//! The terminal symbols of the grammars.

ghost use Rattle.std.specs.Prelude.{◌≡◌};
ghost use Rattle.std.specs.Str.{str_eq_ignore_ascii_case};
ghost use Rattle.rdf_cursor.specs.Symbols.{mark_of, schema_mark, word_of, document_word, logic_word, kind_word, count_word, range_word, shape_word, tag_of, symbol_of, same_symbol};

use rdf_lex::{Kind, Token};

/// What a token is to a grammar (RDF 1.1 Turtle, section 6.5; RDF 1.1 N-Triples, section 7; ShapeMap Structure and
/// Language, section 3.1; ShEx 2.1, section 6): its kind, of a mark which one, and of a word or a language tag whether
/// it is a keyword of one of these languages.
#[derive(Clone, Copy, Debug, PartialEq, Eq)]
pub enum Symbol {
    /// An IRI between `<` and `>` (IRIREF).
    IriRef,
    /// A prefix and its colon (PNAME_NS).
    PnameNs,
    /// A prefixed name (PNAME_LN).
    PnameLn,
    /// A label of a blank node (BLANK_NODE_LABEL).
    BlankLabel,
    /// A language tag behind `@` (LANGTAG) that is no keyword.
    LangTag,
    /// `@prefix`, which is also a language tag.
    AtPrefix,
    /// `@base`, which is also a language tag.
    AtBase,
    /// `@START`, which is also a language tag.
    AtStart,
    /// `@` and a prefix or a prefixed name (ATPNAME_NS, ATPNAME_LN).
    AtName,
    /// A text in quotation marks (String).
    Str,
    /// A whole number (INTEGER).
    Integer,
    /// A number with a point (DECIMAL).
    Decimal,
    /// A number with an exponent (DOUBLE).
    Double,
    /// One or more line ends (EOL).
    Line,
    /// A regular expression between slashes (REGEXP).
    Pattern,
    /// `a`, in these letters.
    A,
    /// `true`, in these letters.
    True,
    /// `false`, in these letters.
    False,
    /// `FOCUS`, in these letters.
    Focus,
    /// `START`, in these letters.
    Start,
    /// `START` in any other letter case.
    AnyStart,
    /// `PREFIX` in any letter case.
    SparqlPrefix,
    /// `BASE` in any letter case.
    SparqlBase,
    /// `IMPORT` in any letter case.
    Import,
    /// `EXTERNAL` in any letter case.
    External,
    /// `AND` in any letter case.
    And,
    /// `OR` in any letter case.
    Or,
    /// `NOT` in any letter case.
    Not,
    /// `IRI` in any letter case.
    Iri,
    /// `BNODE` in any letter case.
    Bnode,
    /// `LITERAL` in any letter case.
    Literal,
    /// `NONLITERAL` in any letter case.
    NonLiteral,
    /// `LENGTH` in any letter case.
    Length,
    /// `MINLENGTH` in any letter case.
    MinLength,
    /// `MAXLENGTH` in any letter case.
    MaxLength,
    /// `TOTALDIGITS` in any letter case.
    TotalDigits,
    /// `FRACTIONDIGITS` in any letter case.
    FractionDigits,
    /// `MININCLUSIVE` in any letter case.
    MinInclusive,
    /// `MINEXCLUSIVE` in any letter case.
    MinExclusive,
    /// `MAXINCLUSIVE` in any letter case.
    MaxInclusive,
    /// `MAXEXCLUSIVE` in any letter case.
    MaxExclusive,
    /// `EXTRA` in any letter case.
    Extra,
    /// `CLOSED` in any letter case.
    Closed,
    /// `ABSTRACT` in any letter case.
    Abstract,
    /// `EXTENDS` in any letter case.
    Extends,
    /// `RESTRICTS` in any letter case.
    Restricts,
    /// `.`
    Dot,
    /// `;`
    Semicolon,
    /// `,`
    Comma,
    /// `[`
    OpenBracket,
    /// `]`
    CloseBracket,
    /// `(`
    OpenParenthesis,
    /// `)`
    CloseParenthesis,
    /// `{`
    OpenBrace,
    /// `}`
    CloseBrace,
    /// `^^`
    Carets,
    /// `@`
    At,
    /// `!`
    Exclamation,
    /// `_`
    Underscore,
    /// `|`
    Bar,
    /// `~`
    Tilde,
    /// `-`
    Minus,
    /// `=`
    Equals,
    /// `$`
    Dollar,
    /// `&`
    Ampersand,
    /// `^`
    Caret,
    /// `*`
    Star,
    /// `+`
    Plus,
    /// `?`
    Question,
    /// `//`
    Slashes,
    /// `%`
    Percent,
    /// A word that is no keyword.
    Other,
}

impl Symbol {
    /// The symbol that a token is.
    pub fn of(token: Token<'_>) -> Symbol
        ensures { result ≡ symbol_of token.entry.kind token.entry.text.now }
    {
        match token.kind {
            Kind::IriRef => Symbol::IriRef,
            Kind::PnameNs => Symbol::PnameNs,
            Kind::PnameLn => Symbol::PnameLn,
            Kind::BlankLabel => Symbol::BlankLabel,
            Kind::LangTag => tag(token.text),
            Kind::AtName => Symbol::AtName,
            Kind::Str => Symbol::Str,
            Kind::Integer => Symbol::Integer,
            Kind::Decimal => Symbol::Decimal,
            Kind::Double => Symbol::Double,
            Kind::Word => word(token.text),
            Kind::Punct => mark(token.text),
            Kind::Line => Symbol::Line,
            Kind::Pattern => Symbol::Pattern,
        }
    }

    /// Whether both are one symbol.
    pub fn is(self, other: Symbol) -> bool
        ensures { result ≡ same_symbol self other }
    {
        self == other
    }
}

/// Which mark a text is.
fn mark(text: &str) -> Symbol
    ensures { result ≡ mark_of text.now }
{
    match text {
        "." => Symbol::Dot,
        ";" => Symbol::Semicolon,
        "," => Symbol::Comma,
        "[" => Symbol::OpenBracket,
        "]" => Symbol::CloseBracket,
        "(" => Symbol::OpenParenthesis,
        ")" => Symbol::CloseParenthesis,
        "{" => Symbol::OpenBrace,
        "}" => Symbol::CloseBrace,
        "^^" => Symbol::Carets,
        "@" => Symbol::At,
        "!" => Symbol::Exclamation,
        "_" => Symbol::Underscore,
        _ => schema_mark(text),
    }
}

/// Which mark that only ShExC has a text is.
fn schema_mark(text: &str) -> Symbol
    ensures { result ≡ schema_mark text.now }
{
    match text {
        "|" => Symbol::Bar,
        "~" => Symbol::Tilde,
        "-" => Symbol::Minus,
        "=" => Symbol::Equals,
        "$" => Symbol::Dollar,
        "&" => Symbol::Ampersand,
        "^" => Symbol::Caret,
        "*" => Symbol::Star,
        "+" => Symbol::Plus,
        "?" => Symbol::Question,
        "//" => Symbol::Slashes,
        "%" => Symbol::Percent,
        _ => Symbol::Other,
    }
}

/// Whether a text is a keyword in any letter case.
fn is_keyword(text: &str, keyword: &str) -> bool
    ensures { result ≡ str_eq_ignore_ascii_case text.now keyword.now }
{
    text.eq_ignore_ascii_case(keyword)
}

/// Which keyword a word is.
fn word(text: &str) -> Symbol
    ensures { result ≡ word_of text.now }
{
    match text {
        "a" => Symbol::A,
        "true" => Symbol::True,
        "false" => Symbol::False,
        "FOCUS" => Symbol::Focus,
        "START" => Symbol::Start,
        _ => document_word(text),
    }
}

/// Which keyword of a document a word is, or which other one.
fn document_word(text: &str) -> Symbol
    ensures { result ≡ document_word text.now }
{
    match text {
        _ if is_keyword(text, "start") => Symbol::AnyStart,
        _ if is_keyword(text, "prefix") => Symbol::SparqlPrefix,
        _ if is_keyword(text, "base") => Symbol::SparqlBase,
        _ if is_keyword(text, "import") => Symbol::Import,
        _ if is_keyword(text, "external") => Symbol::External,
        _ => logic_word(text),
    }
}

/// Which keyword of an expression a word is, or which other one.
fn logic_word(text: &str) -> Symbol
    ensures { result ≡ logic_word text.now }
{
    match text {
        _ if is_keyword(text, "and") => Symbol::And,
        _ if is_keyword(text, "or") => Symbol::Or,
        _ if is_keyword(text, "not") => Symbol::Not,
        _ => kind_word(text),
    }
}

/// Which keyword of a node kind a word is, or which other one.
fn kind_word(text: &str) -> Symbol
    ensures { result ≡ kind_word text.now }
{
    match text {
        _ if is_keyword(text, "iri") => Symbol::Iri,
        _ if is_keyword(text, "bnode") => Symbol::Bnode,
        _ if is_keyword(text, "literal") => Symbol::Literal,
        _ if is_keyword(text, "nonliteral") => Symbol::NonLiteral,
        _ => count_word(text),
    }
}

/// Which keyword of a facet with a number of characters or digits a word is, or which other one.
fn count_word(text: &str) -> Symbol
    ensures { result ≡ count_word text.now }
{
    match text {
        _ if is_keyword(text, "length") => Symbol::Length,
        _ if is_keyword(text, "minlength") => Symbol::MinLength,
        _ if is_keyword(text, "maxlength") => Symbol::MaxLength,
        _ if is_keyword(text, "totaldigits") => Symbol::TotalDigits,
        _ if is_keyword(text, "fractiondigits") => Symbol::FractionDigits,
        _ => range_word(text),
    }
}

/// Which keyword of a range facet a word is, or which other one.
fn range_word(text: &str) -> Symbol
    ensures { result ≡ range_word text.now }
{
    match text {
        _ if is_keyword(text, "mininclusive") => Symbol::MinInclusive,
        _ if is_keyword(text, "minexclusive") => Symbol::MinExclusive,
        _ if is_keyword(text, "maxinclusive") => Symbol::MaxInclusive,
        _ if is_keyword(text, "maxexclusive") => Symbol::MaxExclusive,
        _ => shape_word(text),
    }
}

/// Which keyword of a Shape a word is, or which other one.
fn shape_word(text: &str) -> Symbol
    ensures { result ≡ shape_word text.now }
{
    match text {
        _ if is_keyword(text, "extra") => Symbol::Extra,
        _ if is_keyword(text, "closed") => Symbol::Closed,
        _ if is_keyword(text, "abstract") => Symbol::Abstract,
        _ if is_keyword(text, "extends") => Symbol::Extends,
        _ if is_keyword(text, "restricts") => Symbol::Restricts,
        _ => Symbol::Other,
    }
}

/// Whether a language tag is a keyword.
fn tag(text: &str) -> Symbol
    ensures { result ≡ tag_of text.now }
{
    match text {
        "@prefix" => Symbol::AtPrefix,
        "@base" => Symbol::AtBase,
        "@START" => Symbol::AtStart,
        _ => Symbol::LangTag,
    }
}
