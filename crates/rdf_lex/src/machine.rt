//! The machine that reads tokens: a state for each thing that a token may have come to.

ghost use Rattle.std.specs.Prelude.{◌≡◌};
ghost use Rattle.rdf_lex.specs.Machine.{fewer_of, iri_behind, short_behind, long_behind, following, iri_rows, short_rows, long_rows, escape_rows, text_rows, number_rows, name_rows, prefix_rows, local_rows, tag_rows, label_rows, pattern_rows, start_rows, step_of, text_label, number_label, name_label, in_maps, in_schemas, behind_at, at_name_label, tag_label, label_label, mark_label, pattern_label, label_of};

use crate::characters::{
    is_brace, is_digit, is_flag, is_hexadecimal, is_iri_char, is_label_start, is_letter,
    is_letter_or_digit, is_line_end, is_local_char, is_local_escaped, is_local_start, is_long_char,
    is_mark, is_name_base, is_name_char, is_pattern_char, is_pattern_start, is_schema_mark,
    is_short_char, is_text_escaped, is_turtle_mark,
};
use crate::kinds::{Kind, Mode};

/// How many hexadecimal digits of an escape are still to come.
#[derive(Clone, Copy)]
pub enum Left {
    One,
    Two,
    Three,
    Four,
    Five,
    Six,
    Seven,
    Eight,
}

/// The quotation mark that a text began with.
#[derive(Clone, Copy)]
pub enum Quote {
    Single,
    Double,
}

/// A place in an IRI.
#[derive(Clone, Copy)]
pub enum IriPart {
    Body,
    Escape,
    Digits(Left),
    End,
}

/// A place in a text: behind its first quotation mark, in it, or behind its last.
#[derive(Clone, Copy)]
pub enum TextPart {
    Opened,
    Short,
    ShortEscape,
    ShortDigits(Left),
    Empty,
    Long,
    LongQuote,
    LongQuotes,
    LongEscape,
    LongDigits(Left),
    End,
}

/// A place in a number. `Point` is behind a point that nothing stands before.
#[derive(Clone, Copy)]
pub enum NumberPart {
    Sign,
    Digits,
    DigitsPoint,
    Point,
    SignPoint,
    Fraction,
    Exponent,
    ExponentSign,
    ExponentDigits,
}

/// Whether a prefixed name stands alone or behind `@`.
#[derive(Clone, Copy)]
pub enum Lead {
    Alone,
    At,
}

/// A place in a prefixed name. All is letters up to `Word`.
#[derive(Clone, Copy)]
pub enum NamePart {
    Word,
    Prefix,
    PrefixDot,
    Colon,
    Local,
    LocalDot,
    Percent,
    PercentDigit,
    LocalEscape,
}

/// A place in a language tag.
#[derive(Clone, Copy)]
pub enum TagPart {
    At,
    Tag,
    Dash,
    More,
}

/// A place in a blank node's label. `Colons` is behind one that only N-Triples and shape maps have.
#[derive(Clone, Copy)]
pub enum LabelPart {
    Underscore,
    Colon,
    Label,
    LabelDot,
    Colons,
    ColonsDot,
}

/// A mark of punctuation, by the modes that have it.
#[derive(Clone, Copy)]
pub enum MarkPart {
    Comma,
    Turtle,
    Brace,
    Exclamation,
    Schema,
    Caret,
    Carets,
    Slashes,
}

/// A place in a pattern: behind its first slash, in it, behind a backslash in it, or behind its last slash.
#[derive(Clone, Copy)]
pub enum PatternPart {
    Slash,
    Body,
    Escape,
    Flags,
}

/// How far a token has come.
#[derive(Clone, Copy)]
pub enum State {
    Start,
    Iri(IriPart),
    Text(Quote, TextPart),
    Number(NumberPart),
    Name(Lead, NamePart),
    Tag(TagPart),
    Label(LabelPart),
    Mark(MarkPart),
    Line,
    Pattern(PatternPart),
}

/// One digit fewer, if there is one.
pub fn fewer(left: Left) -> Option<Left>
    ensures { result ≡ fewer_of left }
{
    match left {
        Left::One => None,
        Left::Two => Some(Left::One),
        Left::Three => Some(Left::Two),
        Left::Four => Some(Left::Three),
        Left::Five => Some(Left::Four),
        Left::Six => Some(Left::Five),
        Left::Seven => Some(Left::Six),
        Left::Eight => Some(Left::Seven),
    }
}

fn iri_digit(left: Left) -> State
    ensures { result ≡ iri_behind (fewer_of left) }
{
    match fewer(left) {
        Some(fewer) => State::Iri(IriPart::Digits(fewer)),
        None => State::Iri(IriPart::Body),
    }
}

fn short_digit(quote: Quote, left: Left) -> State
    ensures { result ≡ short_behind quote (fewer_of left) }
{
    match fewer(left) {
        Some(fewer) => State::Text(quote, TextPart::ShortDigits(fewer)),
        None => State::Text(quote, TextPart::Short),
    }
}

fn long_digit(quote: Quote, left: Left) -> State
    ensures { result ≡ long_behind quote (fewer_of left) }
{
    match fewer(left) {
        Some(fewer) => State::Text(quote, TextPart::LongDigits(fewer)),
        None => State::Text(quote, TextPart::Long),
    }
}

fn iri_step(part: IriPart, ch: char) -> Option<State>
    ensures { result ≡ following (iri_rows part) ch }
{
    match part {
        IriPart::Body => match ch {
            '>' => Some(State::Iri(IriPart::End)),
            '\\' => Some(State::Iri(IriPart::Escape)),
            _ if is_iri_char(ch) => Some(State::Iri(IriPart::Body)),
            _ => None,
        },
        IriPart::Escape => match ch {
            'u' => Some(State::Iri(IriPart::Digits(Left::Four))),
            'U' => Some(State::Iri(IriPart::Digits(Left::Eight))),
            _ => None,
        },
        IriPart::Digits(left) if is_hexadecimal(ch) => Some(iri_digit(left)),
        IriPart::Digits(_) | IriPart::End => None,
    }
}

/// In a text on one line; its mark leads to `closed`.
fn short_step(quote: Quote, closed: State, ch: char) -> Option<State>
    ensures { result ≡ following (short_rows quote closed) ch }
{
    match ch {
        _ if is_mark(quote, ch) => Some(closed),
        '\\' => Some(State::Text(quote, TextPart::ShortEscape)),
        _ if is_short_char(quote, ch) => Some(State::Text(quote, TextPart::Short)),
        _ => None,
    }
}

/// In a text on many lines; its mark leads to `closed`.
fn long_step(quote: Quote, closed: State, ch: char) -> Option<State>
    ensures { result ≡ following (long_rows quote closed) ch }
{
    match ch {
        _ if is_mark(quote, ch) => Some(closed),
        '\\' => Some(State::Text(quote, TextPart::LongEscape)),
        _ if is_long_char(quote, ch) => Some(State::Text(quote, TextPart::Long)),
        _ => None,
    }
}

/// Behind the backslash of a text, in which `body` goes on and `digits` begins.
fn escape_step(body: State, four: State, eight: State, ch: char) -> Option<State>
    ensures { result ≡ following (escape_rows body four eight) ch }
{
    match ch {
        _ if is_text_escaped(ch) => Some(body),
        'u' => Some(four),
        'U' => Some(eight),
        _ => None,
    }
}

fn text_step(quote: Quote, part: TextPart, ch: char) -> Option<State>
    ensures { result ≡ following (text_rows quote part) ch }
{
    match part {
        TextPart::Opened => short_step(quote, State::Text(quote, TextPart::Empty), ch),
        TextPart::Short => short_step(quote, State::Text(quote, TextPart::End), ch),
        TextPart::ShortEscape => escape_step(
            State::Text(quote, TextPart::Short),
            State::Text(quote, TextPart::ShortDigits(Left::Four)),
            State::Text(quote, TextPart::ShortDigits(Left::Eight)),
            ch,
        ),
        TextPart::ShortDigits(left) if is_hexadecimal(ch) => Some(short_digit(quote, left)),
        TextPart::Empty if is_mark(quote, ch) => Some(State::Text(quote, TextPart::Long)),
        TextPart::Long => long_step(quote, State::Text(quote, TextPart::LongQuote), ch),
        TextPart::LongQuote => long_step(quote, State::Text(quote, TextPart::LongQuotes), ch),
        TextPart::LongQuotes => long_step(quote, State::Text(quote, TextPart::End), ch),
        TextPart::LongEscape => escape_step(
            State::Text(quote, TextPart::Long),
            State::Text(quote, TextPart::LongDigits(Left::Four)),
            State::Text(quote, TextPart::LongDigits(Left::Eight)),
            ch,
        ),
        TextPart::LongDigits(left) if is_hexadecimal(ch) => Some(long_digit(quote, left)),
        TextPart::ShortDigits(_) | TextPart::Empty | TextPart::LongDigits(_) | TextPart::End =>
            None,
    }
}

fn number_step(part: NumberPart, ch: char) -> Option<State>
    ensures { result ≡ following (number_rows part) ch }
{
    match part {
        NumberPart::Sign => match ch {
            _ if is_digit(ch) => Some(State::Number(NumberPart::Digits)),
            '.' => Some(State::Number(NumberPart::SignPoint)),
            _ => None,
        },
        NumberPart::Digits => match ch {
            _ if is_digit(ch) => Some(State::Number(NumberPart::Digits)),
            '.' => Some(State::Number(NumberPart::DigitsPoint)),
            'e' | 'E' => Some(State::Number(NumberPart::Exponent)),
            _ => None,
        },
        NumberPart::DigitsPoint | NumberPart::Fraction => match ch {
            _ if is_digit(ch) => Some(State::Number(NumberPart::Fraction)),
            'e' | 'E' => Some(State::Number(NumberPart::Exponent)),
            _ => None,
        },
        NumberPart::Point | NumberPart::SignPoint if is_digit(ch) => {
            Some(State::Number(NumberPart::Fraction))
        }
        NumberPart::Exponent => match ch {
            _ if is_digit(ch) => Some(State::Number(NumberPart::ExponentDigits)),
            '+' | '-' => Some(State::Number(NumberPart::ExponentSign)),
            _ => None,
        },
        NumberPart::ExponentSign | NumberPart::ExponentDigits if is_digit(ch) => {
            Some(State::Number(NumberPart::ExponentDigits))
        }
        NumberPart::Point
        | NumberPart::SignPoint
        | NumberPart::ExponentSign
        | NumberPart::ExponentDigits => None,
    }
}

fn name_step(lead: Lead, part: NamePart, ch: char) -> Option<State>
    ensures { result ≡ following (name_rows lead part) ch }
{
    match part {
        NamePart::Word if is_letter(ch) => Some(State::Name(lead, NamePart::Word)),
        NamePart::Word | NamePart::Prefix => prefix_step(lead, ch),
        NamePart::PrefixDot => match ch {
            _ if is_name_char(ch) => Some(State::Name(lead, NamePart::Prefix)),
            '.' => Some(State::Name(lead, NamePart::PrefixDot)),
            _ => None,
        },
        NamePart::Colon => match ch {
            _ if is_local_start(ch) => Some(State::Name(lead, NamePart::Local)),
            '%' => Some(State::Name(lead, NamePart::Percent)),
            '\\' => Some(State::Name(lead, NamePart::LocalEscape)),
            _ => None,
        },
        NamePart::Local | NamePart::LocalDot => local_step(lead, ch),
        NamePart::Percent if is_hexadecimal(ch) => Some(State::Name(lead, NamePart::PercentDigit)),
        NamePart::PercentDigit if is_hexadecimal(ch) => Some(State::Name(lead, NamePart::Local)),
        NamePart::LocalEscape if is_local_escaped(ch) => Some(State::Name(lead, NamePart::Local)),
        NamePart::Percent | NamePart::PercentDigit | NamePart::LocalEscape => None,
    }
}

/// In a prefix that does not end with a dot.
fn prefix_step(lead: Lead, ch: char) -> Option<State>
    ensures { result ≡ following (prefix_rows lead) ch }
{
    match ch {
        _ if is_name_char(ch) => Some(State::Name(lead, NamePart::Prefix)),
        '.' => Some(State::Name(lead, NamePart::PrefixDot)),
        ':' => Some(State::Name(lead, NamePart::Colon)),
        _ => None,
    }
}

/// In a local name.
fn local_step(lead: Lead, ch: char) -> Option<State>
    ensures { result ≡ following (local_rows lead) ch }
{
    match ch {
        _ if is_local_char(ch) => Some(State::Name(lead, NamePart::Local)),
        '.' => Some(State::Name(lead, NamePart::LocalDot)),
        '%' => Some(State::Name(lead, NamePart::Percent)),
        '\\' => Some(State::Name(lead, NamePart::LocalEscape)),
        _ => None,
    }
}

fn tag_step(part: TagPart, ch: char) -> Option<State>
    ensures { result ≡ following (tag_rows part) ch }
{
    match part {
        TagPart::At => match ch {
            _ if is_letter(ch) => Some(State::Tag(TagPart::Tag)),
            _ if is_name_base(ch) => Some(State::Name(Lead::At, NamePart::Prefix)),
            ':' => Some(State::Name(Lead::At, NamePart::Colon)),
            _ => None,
        },
        TagPart::Tag if is_letter(ch) => Some(State::Tag(TagPart::Tag)),
        TagPart::Dash | TagPart::More if is_letter_or_digit(ch) => Some(State::Tag(TagPart::More)),
        TagPart::Tag | TagPart::More if ch == '-' => Some(State::Tag(TagPart::Dash)),
        TagPart::Tag | TagPart::Dash | TagPart::More => prefix_step(Lead::At, ch),
    }
}

fn label_step(part: LabelPart, ch: char) -> Option<State>
    ensures { result ≡ following (label_rows part) ch }
{
    match part {
        LabelPart::Underscore if ch == ':' => Some(State::Label(LabelPart::Colon)),
        LabelPart::Underscore => None,
        LabelPart::Colon => match ch {
            _ if is_label_start(ch) => Some(State::Label(LabelPart::Label)),
            ':' => Some(State::Label(LabelPart::Colons)),
            _ => None,
        },
        LabelPart::Label | LabelPart::LabelDot => match ch {
            _ if is_name_char(ch) => Some(State::Label(LabelPart::Label)),
            '.' => Some(State::Label(LabelPart::LabelDot)),
            ':' => Some(State::Label(LabelPart::Colons)),
            _ => None,
        },
        LabelPart::Colons | LabelPart::ColonsDot => match ch {
            _ if is_local_char(ch) => Some(State::Label(LabelPart::Colons)),
            '.' => Some(State::Label(LabelPart::ColonsDot)),
            _ => None,
        },
    }
}

#[tactic(auto, unfolding(crate::specs::Characters::any_char))]
fn pattern_step(part: PatternPart, ch: char) -> Option<State>
    ensures { result ≡ following (pattern_rows part) ch }
{
    match part {
        PatternPart::Slash => match ch {
            '/' => Some(State::Mark(MarkPart::Slashes)),
            '\\' => Some(State::Pattern(PatternPart::Escape)),
            _ if is_pattern_start(ch) => Some(State::Pattern(PatternPart::Body)),
            _ => None,
        },
        PatternPart::Body => match ch {
            '/' => Some(State::Pattern(PatternPart::Flags)),
            '\\' => Some(State::Pattern(PatternPart::Escape)),
            _ if is_pattern_char(ch) => Some(State::Pattern(PatternPart::Body)),
            _ => None,
        },
        PatternPart::Escape => Some(State::Pattern(PatternPart::Body)),
        PatternPart::Flags if is_flag(ch) => Some(State::Pattern(PatternPart::Flags)),
        PatternPart::Flags => None,
    }
}

fn first_step(ch: char) -> Option<State>
    ensures { result ≡ following start_rows ch }
{
    match ch {
        '<' => Some(State::Iri(IriPart::Body)),
        '"' => Some(State::Text(Quote::Double, TextPart::Opened)),
        '\'' => Some(State::Text(Quote::Single, TextPart::Opened)),
        '@' => Some(State::Tag(TagPart::At)),
        '+' | '-' => Some(State::Number(NumberPart::Sign)),
        _ if is_digit(ch) => Some(State::Number(NumberPart::Digits)),
        '.' => Some(State::Number(NumberPart::Point)),
        _ if is_letter(ch) => Some(State::Name(Lead::Alone, NamePart::Word)),
        _ if is_name_base(ch) => Some(State::Name(Lead::Alone, NamePart::Prefix)),
        ':' => Some(State::Name(Lead::Alone, NamePart::Colon)),
        '_' => Some(State::Label(LabelPart::Underscore)),
        '^' => Some(State::Mark(MarkPart::Caret)),
        ',' => Some(State::Mark(MarkPart::Comma)),
        _ if is_turtle_mark(ch) => Some(State::Mark(MarkPart::Turtle)),
        _ if is_brace(ch) => Some(State::Mark(MarkPart::Brace)),
        '!' => Some(State::Mark(MarkPart::Exclamation)),
        '/' => Some(State::Pattern(PatternPart::Slash)),
        _ if is_schema_mark(ch) => Some(State::Mark(MarkPart::Schema)),
        _ if is_line_end(ch) => Some(State::Line),
        _ => None,
    }
}

/// Where a token is after one more character.
pub fn step(state: State, ch: char) -> Option<State>
    ensures { result ≡ step_of state ch }
{
    match state {
        State::Start => first_step(ch),
        State::Iri(part) => iri_step(part, ch),
        State::Text(quote, part) => text_step(quote, part, ch),
        State::Number(part) => number_step(part, ch),
        State::Name(lead, part) => name_step(lead, part, ch),
        State::Tag(part) => tag_step(part, ch),
        State::Label(part) => label_step(part, ch),
        State::Mark(MarkPart::Caret) if ch == '^' => Some(State::Mark(MarkPart::Carets)),
        State::Mark(_) => None,
        State::Line if is_line_end(ch) => Some(State::Line),
        State::Line => None,
        State::Pattern(part) => pattern_step(part, ch),
    }
}

fn text_kind(part: TextPart) -> Option<Kind>
    ensures { result ≡ text_label part }
{
    match part {
        TextPart::Empty | TextPart::End => Some(Kind::Str),
        TextPart::Opened
        | TextPart::Short
        | TextPart::ShortEscape
        | TextPart::ShortDigits(_)
        | TextPart::Long
        | TextPart::LongQuote
        | TextPart::LongQuotes
        | TextPart::LongEscape
        | TextPart::LongDigits(_) => None,
    }
}

fn number_kind(mode: Mode, part: NumberPart) -> Option<Kind>
    ensures { result ≡ number_label mode part }
{
    match part {
        NumberPart::Digits => Some(Kind::Integer),
        NumberPart::Fraction => Some(Kind::Decimal),
        NumberPart::ExponentDigits => Some(Kind::Double),
        NumberPart::Point => Some(Kind::Punct),
        NumberPart::Sign => only_in_schemas(mode, Kind::Punct),
        NumberPart::DigitsPoint
        | NumberPart::SignPoint
        | NumberPart::Exponent
        | NumberPart::ExponentSign => None,
    }
}

fn name_kind(part: NamePart) -> Option<Kind>
    ensures { result ≡ name_label part }
{
    match part {
        NamePart::Word => Some(Kind::Word),
        NamePart::Colon => Some(Kind::PnameNs),
        NamePart::Local => Some(Kind::PnameLn),
        NamePart::Prefix
        | NamePart::PrefixDot
        | NamePart::LocalDot
        | NamePart::Percent
        | NamePart::PercentDigit
        | NamePart::LocalEscape => None,
    }
}

/// A kind that only shape maps have.
fn only_in_maps(mode: Mode, kind: Kind) -> Option<Kind>
    ensures { result ≡ in_maps mode kind }
{
    match mode {
        Mode::Map => Some(kind),
        Mode::NTriples | Mode::Turtle | Mode::Schema => None,
    }
}

/// A kind that only ShExC has.
fn only_in_schemas(mode: Mode, kind: Kind) -> Option<Kind>
    ensures { result ≡ in_schemas mode kind }
{
    match mode {
        Mode::Schema => Some(kind),
        Mode::NTriples | Mode::Turtle | Mode::Map => None,
    }
}

/// A kind that shape maps and ShExC have.
fn in_maps_and_schemas(mode: Mode, kind: Kind) -> Option<Kind>
    ensures { result ≡ behind_at mode kind }
{
    match mode {
        Mode::Map | Mode::Schema => Some(kind),
        Mode::NTriples | Mode::Turtle => None,
    }
}

fn at_name_kind(mode: Mode, part: NamePart) -> Option<Kind>
    ensures { result ≡ at_name_label mode part }
{
    match part {
        NamePart::Colon | NamePart::Local => in_maps_and_schemas(mode, Kind::AtName),
        NamePart::Word
        | NamePart::Prefix
        | NamePart::PrefixDot
        | NamePart::LocalDot
        | NamePart::Percent
        | NamePart::PercentDigit
        | NamePart::LocalEscape => None,
    }
}

fn tag_kind(mode: Mode, part: TagPart) -> Option<Kind>
    ensures { result ≡ tag_label mode part }
{
    match part {
        TagPart::At => in_maps_and_schemas(mode, Kind::Punct),
        TagPart::Tag | TagPart::More => Some(Kind::LangTag),
        TagPart::Dash => None,
    }
}

fn label_kind(mode: Mode, part: LabelPart) -> Option<Kind>
    ensures { result ≡ label_label mode part }
{
    match part {
        LabelPart::Underscore => only_in_maps(mode, Kind::Punct),
        LabelPart::Label => Some(Kind::BlankLabel),
        LabelPart::Colons => match mode {
            Mode::NTriples | Mode::Map => Some(Kind::BlankLabel),
            Mode::Turtle | Mode::Schema => None,
        },
        LabelPart::Colon | LabelPart::LabelDot | LabelPart::ColonsDot => None,
    }
}

fn mark_kind(mode: Mode, part: MarkPart) -> Option<Kind>
    ensures { result ≡ mark_label mode part }
{
    match (mode, part) {
        (_, MarkPart::Carets)
        | (Mode::Turtle | Mode::Map | Mode::Schema, MarkPart::Comma)
        | (Mode::Turtle | Mode::Schema, MarkPart::Turtle)
        | (Mode::Map | Mode::Schema, MarkPart::Brace)
        | (Mode::Map, MarkPart::Exclamation)
        | (Mode::Schema, MarkPart::Schema | MarkPart::Caret | MarkPart::Slashes) => {
            Some(Kind::Punct)
        }
        _ => None,
    }
}

fn pattern_kind(mode: Mode, part: PatternPart) -> Option<Kind>
    ensures { result ≡ pattern_label mode part }
{
    match part {
        PatternPart::Flags => only_in_schemas(mode, Kind::Pattern),
        PatternPart::Slash | PatternPart::Body | PatternPart::Escape => None,
    }
}

/// The kind that a token has if it ends here.
pub fn label(mode: Mode, state: State) -> Option<Kind>
    ensures { result ≡ label_of mode state }
{
    match state {
        State::Start => None,
        State::Iri(IriPart::End) => Some(Kind::IriRef),
        State::Iri(_) => None,
        State::Text(_, part) => text_kind(part),
        State::Number(part) => number_kind(mode, part),
        State::Name(Lead::Alone, part) => name_kind(part),
        State::Name(Lead::At, part) => at_name_kind(mode, part),
        State::Tag(part) => tag_kind(mode, part),
        State::Label(part) => label_kind(mode, part),
        State::Mark(part) => mark_kind(mode, part),
        State::Line => match mode {
            Mode::NTriples => Some(Kind::Line),
            Mode::Turtle | Mode::Map | Mode::Schema => None,
        },
        State::Pattern(part) => pattern_kind(mode, part),
    }
}
