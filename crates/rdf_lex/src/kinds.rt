//! The kinds of tokens, and the languages that have them.

/// The language that a text is read in: each has marks of its own, and some have kinds of tokens that others have not.
#[derive(Clone, Copy, Debug, PartialEq, Eq)]
pub enum Mode {
    /// N-Triples (RDF 1.1 N-Triples, section 7): line ends are tokens.
    NTriples,
    /// Turtle (RDF 1.1 Turtle, section 6.5).
    Turtle,
    /// Shape maps: a prefixed name behind `@` is a token of its own.
    Map,
    /// ShExC, the compact syntax of schemas (ShEx 2.1, section 6): patterns, marks of its own, and comments from `/*` to
    /// `*/`.
    Schema,
}

/// What a token is. The names in parentheses are those of the grammars of RDF 1.1 Turtle and N-Triples.
#[derive(Clone, Copy, Debug, PartialEq, Eq)]
pub enum Kind {
    /// An IRI between `<` and `>` (IRIREF).
    IriRef,
    /// A prefix and its colon (PNAME_NS).
    PnameNs,
    /// A prefixed name (PNAME_LN).
    PnameLn,
    /// A label of a blank node (BLANK_NODE_LABEL).
    BlankLabel,
    /// A language tag behind `@` (LANGTAG).
    LangTag,
    /// `@` and a prefix or a prefixed name, in shape maps and ShExC (ATPNAME_NS, ATPNAME_LN).
    AtName,
    /// A text in quotation marks, on one line or on many (String).
    Str,
    /// A whole number (INTEGER).
    Integer,
    /// A number with a point (DECIMAL).
    Decimal,
    /// A number with an exponent (DOUBLE).
    Double,
    /// ASCII letters.
    Word,
    /// A mark of punctuation that the mode has.
    Punct,
    /// One or more line ends, in N-Triples (EOL).
    Line,
    /// A regular expression between slashes with its flags, in ShExC (REGEXP).
    Pattern,
}

impl Kind {
    ghost use Rattle.std.specs.Prelude.{◌≡◌};
    ghost use Rattle.rdf_lex.specs.Escapes.{holds_text};

    /// Whether a token of this kind holds an IRI, a text or a local name, for `unescape`.
    pub fn holds_text(self) -> bool
        ensures { result ≡ holds_text self }
    {
        match self {
            Kind::IriRef | Kind::PnameNs | Kind::PnameLn | Kind::AtName | Kind::Str => true,
            Kind::BlankLabel
            | Kind::LangTag
            | Kind::Integer
            | Kind::Decimal
            | Kind::Double
            | Kind::Word
            | Kind::Punct
            | Kind::Line
            | Kind::Pattern => false,
        }
    }
}
