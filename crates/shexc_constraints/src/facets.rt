//! Facets (ShEx 2.1, section 5.4).

ghost use Rattle.std.specs.Prelude.{◌≡◌, ◌∷◌, ◌++◌, [], IfErr, IfOk, OnOk, true};
ghost use Rattle.std.specs.Option.{option_copied};
ghost use Rattle.node_constraint.specs.Making.{Causes, IsSound};
ghost use Rattle.rdf_cursor.specs.Ahead.{next_is};
ghost use Rattle.rdf_cursor.specs.Cursors.{ahead, source_in};
ghost use Rattle.rdf_cursor.specs.Lent.{spelled};
ghost use Rattle.rdf_cursor.specs.Readers.{loop, one};
ghost use Rattle.rdf_cursor.specs.Symbols.{is_among, same_symbol};
ghost use Rattle.shexc_constraints.specs.declared.faults.Fault.TheVariants.{Syntax};
ghost use Rattle.shexc_constraints.specs.declared.faults.Stop.TheVariants.{Memory};
ghost use Rattle.shexc_constraints.specs.FacetKinds.{facet_of, firsts};
ghost use Rattle.shexc_constraints.specs.Facets.{fresh_word, facet_symbol, is_given, counted_facet, range_facet, counted_of, ranged_of, judged_facet};
ghost use Rattle.shexc_constraints.specs.Patterns.{pattern_of};
ghost use Rattle.shexc_constraints.specs.Reading.{a_facet, counted, ranged, text_facet, number_facet, facet};
ghost use Rattle.shexc_constraints.specs.Stops.{Answers, Gives};

use crate::classes::{at_digit_count, at_facet, at_number_facet, at_text_facet};
use crate::faults::{Fault, Stop};
use crate::tokens::is_one_of;
use crate::{numbers, patterns, terms};
use node_constraint::{Facet, MakeError, NodeConstraint};
use rdf_cursor::{Cursor, Symbol};
use rdf_lex::Token;
use rdf_terms::text::Text;
use std::alloc::{AllocError, Global};
use term_tokens::Names;

/// Which facets may stand in a place.
#[derive(Clone, Copy, Debug, PartialEq, Eq)]
pub enum FacetKind {
    /// Those on texts: lengths and patterns.
    Text,
    /// Those on numbers: ranges and counts of digits.
    Number,
    /// All.
    Any,
}

/// The word or the pattern that a facet begins with.
fn symbol_of(facet: &Facet) -> Symbol
    ensures { result ≡ facet_symbol facet.now }
{
    match facet {
        Facet::Length(_) => Symbol::Length,
        Facet::MinLength(_) => Symbol::MinLength,
        Facet::MaxLength(_) => Symbol::MaxLength,
        Facet::MinInclusive(_) => Symbol::MinInclusive,
        Facet::MinExclusive(_) => Symbol::MinExclusive,
        Facet::MaxInclusive(_) => Symbol::MaxInclusive,
        Facet::MaxExclusive(_) => Symbol::MaxExclusive,
        Facet::TotalDigits(_) => Symbol::TotalDigits,
        Facet::FractionDigits(_) => Symbol::FractionDigits,
        Facet::Pattern(_, _) => Symbol::Pattern,
    }
}

/// Whether a facet begins with it.
fn begins_with(facet: &Facet, symbol: Symbol) -> bool
    ensures { result ≡ same_symbol (facet_symbol facet.now) symbol }
{
    symbol_of(facet).is(symbol)
}

/// Whether one of the facets begins with it.
pub fn is_given(symbol: Symbol, facets: &[Facet]) -> bool
    ensures { result ≡ is_given symbol facets.now }
{
    facets.iter().any(|facet| begins_with(facet, symbol))
}

/// The facet that a word and a number make.
fn counted_facet(symbol: Symbol, number: u32) -> Facet
    ensures { result ≡ counted_facet symbol number }
{
    match symbol {
        Symbol::Length => Facet::Length(number),
        Symbol::MinLength => Facet::MinLength(number),
        Symbol::MaxLength => Facet::MaxLength(number),
        Symbol::TotalDigits => Facet::TotalDigits(number),
        _ => Facet::FractionDigits(number),
    }
}

/// The facet that a word and the text of a number make.
fn range_facet(symbol: Symbol, number: Text) -> Facet
    ensures { result ≡ range_facet symbol number }
{
    match symbol {
        Symbol::MinInclusive => Facet::MinInclusive(number),
        Symbol::MinExclusive => Facet::MinExclusive(number),
        Symbol::MaxInclusive => Facet::MaxInclusive(number),
        _ => Facet::MaxExclusive(number),
    }
}

/// One of these words, which no facet so far begins with.
#[tactic(auto, unfolding(rdf_cursor::specs::Symbols::is_among))]
fn fresh_word(c: &mut Cursor<'_>, words: &[Symbol], fs: &[Facet]) -> Result<Symbol, Stop>
    ensures gives { Gives (λ x. x) result (ahead c.new) (one Syntax (fresh_word words.now fs.now) (ahead c.old)) }
    ensures source { source_in c.new ≡ source_in c.old }
{
    let Some(token) = c.peek() else {
        return Err(Stop::Fault(Fault::Syntax));
    };
    let symbol = Symbol::of(token);
    if !is_one_of(symbol, words) {
        return Err(Stop::Fault(Fault::Syntax));
    }
    if is_given(symbol, fs) {
        return Err(Stop::Fault(Fault::Syntax));
    }
    c.advance();
    Ok(symbol)
}

/// A copy of a facet.
fn copy(alloc: Global, facet: &Facet) -> Result<Facet, AllocError>
    ensures { IfOk result (λ f. f ≡ facet.now) }
{
    match facet {
        Facet::Length(n) => Ok(Facet::Length(*n)),
        Facet::MinLength(n) => Ok(Facet::MinLength(*n)),
        Facet::MaxLength(n) => Ok(Facet::MaxLength(*n)),
        Facet::MinInclusive(x) => Ok(Facet::MinInclusive(x.try_clone(alloc)?)),
        Facet::MinExclusive(x) => Ok(Facet::MinExclusive(x.try_clone(alloc)?)),
        Facet::MaxInclusive(x) => Ok(Facet::MaxInclusive(x.try_clone(alloc)?)),
        Facet::MaxExclusive(x) => Ok(Facet::MaxExclusive(x.try_clone(alloc)?)),
        Facet::TotalDigits(n) => Ok(Facet::TotalDigits(*n)),
        Facet::FractionDigits(n) => Ok(Facet::FractionDigits(*n)),
        Facet::Pattern(x, flags) => Ok(Facet::Pattern(
            x.try_clone(alloc)?,
            flags.try_clone(alloc)?,
        )),
    }
}

/// A copy of a datatype, if there is one.
fn cloned(alloc: Global, datatype: Option<&Text>) -> Result<Option<Text>, AllocError>
    ensures { IfOk result (λ d. d ≡ option_copied datatype.entry) }
{
    match datatype {
        Some(datatype) => Ok(Some(datatype.try_clone(alloc)?)),
        None => Ok(None),
    }
}

/// A list of one facet.
fn single(alloc: Global, facet: &Facet) -> Result<Vec<Facet>, Stop>
    ensures ok { IfOk result (λ fs. fs.items ≡ facet.now ∷ []) }
    ensures memory { IfErr result (λ e. e ≡ Memory) }
{
    let copy = copy(alloc, facet)?;
    let mut facets = Vec::new(alloc);
    facets.push(copy)?;
    Ok(facets)
}

/// Fails where no constraint is made of these, and says why.
fn refuse_unsound(
    alloc: Global,
    datatype: Option<Text>,
    facets: Vec<Facet>,
) -> Result<(), MakeError>
    ensures sound { OnOk result (IsSound datatype facets.items) }
    ensures cause { IfErr result (Causes datatype facets.items) }
{
    match NodeConstraint::make(alloc, None, datatype, facets, None) {
        Ok(constraint) => {
            drop(constraint);
            Ok(())
        }
        Err(error) => Err(error),
    }
}

/// Fails where the facet may not stand beside the datatype.
#[tactic(auto, unfolding(crate::specs::Facets::judged_facet))]
fn admit(alloc: Global, datatype: Option<&Text>, facet: &Facet) -> Result<(), Stop>
    ensures answer { Answers (λ _. facet.now) result (judged_facet true (option_copied datatype.entry) facet.now) }
    ensures sound { OnOk result (IsSound (option_copied datatype.entry) (facet.now ∷ [])) }
{
    let facets = single(alloc, facet)?;
    match refuse_unsound(alloc, cloned(alloc, datatype)?, facets) {
        Ok(()) => Ok(()),
        Err(MakeError::FloatFacet) => Err(Stop::Fault(Fault::FloatFacet)),
        Err(MakeError::FacetNumber) => Err(Stop::Fault(Fault::FacetNumber)),
        Err(MakeError::Pattern(error)) => Err(Stop::Fault(Fault::Pattern(error))),
        Err(MakeError::Memory) => Err(Stop::Memory),
    }
}

/// Puts a facet behind others, if it may stand beside the datatype.
fn add(
    alloc: Global,
    datatype: Option<&Text>,
    facet: Facet,
    fs: &mut Vec<Facet>,
) -> Result<(), Stop>
    requires so_far { IsSound (option_copied datatype) fs.old.items }
    ensures answer { Answers (λ _. facet) result (judged_facet true (option_copied datatype.entry) facet) }
    ensures behind { OnOk result (fs.new.items ≡ fs.old.items ++ facet ∷ []) }
    ensures sound { OnOk result (IsSound (option_copied datatype.entry) fs.new.items) }
{
    admit(alloc, datatype, &facet)?;
    fs.push(facet)?;
    Ok(())
}

/// The facet of a word and a number.
fn counted(symbol: Symbol, token: Token<'_>) -> Result<Facet, Stop>
    ensures { Answers (λ f. f) result (counted_of symbol (spelled token.entry)) }
{
    let number = numbers::facet_number(token)?;
    Ok(counted_facet(symbol, number))
}

/// The facet of a word and the text of a number.
fn ranged(alloc: Global, symbol: Symbol, token: Token<'_>) -> Result<Facet, Stop>
    ensures { Answers (λ f. f) result (ranged_of symbol (spelled token.entry)) }
{
    let number = terms::range_number(alloc, token)?;
    Ok(range_facet(symbol, number))
}

/// The number of a word, as a facet that goes behind others.
#[tactic(auto, unfolding(crate::specs::Reading::a_facet))]
fn counted_facet_behind(
    c: &mut Cursor<'_>,
    names: &Names<'_>,
    datatype: Option<&Text>,
    symbol: Symbol,
    fs: &mut Vec<Facet>,
) -> Result<(), Stop>
    requires so_far { IsSound (option_copied datatype) fs.old.items }
    ensures gives { Gives (λ x. fs.new.items) result (ahead c.new) (a_facet true (option_copied datatype.entry) (counted_of symbol) fs.old.items (ahead c.old)) }
    ensures sound { OnOk result (IsSound (option_copied datatype.entry) fs.new.items) }
    ensures source { source_in c.new ≡ source_in c.old }
{
    let Some(token) = c.peek() else {
        return Err(Stop::Fault(Fault::Syntax));
    };
    let facet = counted(symbol, token)?;
    add(names.alloc, datatype, facet, fs)?;
    c.advance();
    Ok(())
}

/// The number of a word of a range, as a facet that goes behind others.
#[tactic(auto, unfolding(crate::specs::Reading::a_facet))]
fn range_facet_behind(
    c: &mut Cursor<'_>,
    names: &Names<'_>,
    datatype: Option<&Text>,
    symbol: Symbol,
    fs: &mut Vec<Facet>,
) -> Result<(), Stop>
    requires so_far { IsSound (option_copied datatype) fs.old.items }
    ensures gives { Gives (λ x. fs.new.items) result (ahead c.new) (a_facet true (option_copied datatype.entry) (ranged_of symbol) fs.old.items (ahead c.old)) }
    ensures sound { OnOk result (IsSound (option_copied datatype.entry) fs.new.items) }
    ensures source { source_in c.new ≡ source_in c.old }
{
    let Some(token) = c.peek() else {
        return Err(Stop::Fault(Fault::Syntax));
    };
    let facet = ranged(names.alloc, symbol, token)?;
    add(names.alloc, datatype, facet, fs)?;
    c.advance();
    Ok(())
}

/// A pattern, as a facet that goes behind others.
#[tactic(auto, unfolding(crate::specs::Reading::a_facet))]
fn pattern_behind(
    c: &mut Cursor<'_>,
    names: &Names<'_>,
    datatype: Option<&Text>,
    fs: &mut Vec<Facet>,
) -> Result<(), Stop>
    requires so_far { IsSound (option_copied datatype) fs.old.items }
    ensures gives { Gives (λ x. fs.new.items) result (ahead c.new) (a_facet true (option_copied datatype.entry) (pattern_of fs.old.items) fs.old.items (ahead c.old)) }
    ensures sound { OnOk result (IsSound (option_copied datatype.entry) fs.new.items) }
    ensures source { source_in c.new ≡ source_in c.old }
{
    let Some(token) = c.peek() else {
        return Err(Stop::Fault(Fault::Syntax));
    };
    let facet = patterns::pattern(names.alloc, fs.as_slice(), token)?;
    add(names.alloc, datatype, facet, fs)?;
    c.advance();
    Ok(())
}

/// One of these words and its number.
#[tactic(auto, unfolding(crate::specs::Reading::counted))]
fn count_facet(
    c: &mut Cursor<'_>,
    names: &Names<'_>,
    datatype: Option<&Text>,
    words: &[Symbol],
    fs: &mut Vec<Facet>,
) -> Result<(), Stop>
    requires so_far { IsSound (option_copied datatype) fs.old.items }
    ensures gives { Gives (λ x. fs.new.items) result (ahead c.new) (counted true (option_copied datatype.entry) words.now fs.old.items (ahead c.old)) }
    ensures sound { OnOk result (IsSound (option_copied datatype.entry) fs.new.items) }
    ensures source { source_in c.new ≡ source_in c.old }
{
    let symbol = fresh_word(c, words, fs.as_slice())?;
    counted_facet_behind(c, names, datatype, symbol, fs)
}

/// A word of a range and its number.
#[tactic(auto, unfolding(crate::specs::Reading::ranged))]
fn range_facet_of(
    c: &mut Cursor<'_>,
    names: &Names<'_>,
    datatype: Option<&Text>,
    fs: &mut Vec<Facet>,
) -> Result<(), Stop>
    requires so_far { IsSound (option_copied datatype) fs.old.items }
    ensures gives { Gives (λ x. fs.new.items) result (ahead c.new) (ranged true (option_copied datatype.entry) fs.old.items (ahead c.old)) }
    ensures sound { OnOk result (IsSound (option_copied datatype.entry) fs.new.items) }
    ensures source { source_in c.new ≡ source_in c.old }
{
    let ranges = [
        Symbol::MinInclusive,
        Symbol::MinExclusive,
        Symbol::MaxInclusive,
        Symbol::MaxExclusive,
    ];
    let symbol = fresh_word(c, &ranges, fs.as_slice())?;
    range_facet_behind(c, names, datatype, symbol, fs)
}

/// A facet on texts, which goes behind others.
#[tactic(auto, unfolding(crate::specs::Reading::text_facet))]
fn text_facet(
    c: &mut Cursor<'_>,
    names: &Names<'_>,
    datatype: Option<&Text>,
    fs: &mut Vec<Facet>,
) -> Result<(), Stop>
    requires so_far { IsSound (option_copied datatype) fs.old.items }
    ensures gives { Gives (λ x. fs.new.items) result (ahead c.new) (text_facet true (option_copied datatype.entry) fs.old.items (ahead c.old)) }
    ensures sound { OnOk result (IsSound (option_copied datatype.entry) fs.new.items) }
    ensures source { source_in c.new ≡ source_in c.old }
{
    if c.is_at(Symbol::Pattern) {
        pattern_behind(c, names, datatype, fs)
    } else {
        let lengths = [Symbol::Length, Symbol::MinLength, Symbol::MaxLength];
        count_facet(c, names, datatype, &lengths, fs)
    }
}

/// A facet on numbers, which goes behind others.
#[tactic(auto, unfolding(crate::specs::Reading::number_facet))]
fn number_facet(
    c: &mut Cursor<'_>,
    names: &Names<'_>,
    datatype: Option<&Text>,
    fs: &mut Vec<Facet>,
) -> Result<(), Stop>
    requires so_far { IsSound (option_copied datatype) fs.old.items }
    ensures gives { Gives (λ x. fs.new.items) result (ahead c.new) (number_facet true (option_copied datatype.entry) fs.old.items (ahead c.old)) }
    ensures sound { OnOk result (IsSound (option_copied datatype.entry) fs.new.items) }
    ensures source { source_in c.new ≡ source_in c.old }
{
    if at_digit_count(c) {
        let digit_counts = [Symbol::TotalDigits, Symbol::FractionDigits];
        count_facet(c, names, datatype, &digit_counts, fs)
    } else {
        range_facet_of(c, names, datatype, fs)
    }
}

/// A facet, which goes behind others.
#[tactic(auto, unfolding(crate::specs::Reading::facet))]
fn facet(
    c: &mut Cursor<'_>,
    names: &Names<'_>,
    datatype: Option<&Text>,
    fs: &mut Vec<Facet>,
) -> Result<(), Stop>
    requires so_far { IsSound (option_copied datatype) fs.old.items }
    ensures gives { Gives (λ x. fs.new.items) result (ahead c.new) (facet true (option_copied datatype.entry) fs.old.items (ahead c.old)) }
    ensures sound { OnOk result (IsSound (option_copied datatype.entry) fs.new.items) }
    ensures source { source_in c.new ≡ source_in c.old }
{
    if at_text_facet(c) {
        text_facet(c, names, datatype, fs)
    } else {
        number_facet(c, names, datatype, fs)
    }
}

/// Whether a facet of this kind is next.
fn at_kind(c: &Cursor<'_>, kind: FacetKind) -> bool
    ensures { result ≡ next_is (is_among (firsts kind)) (ahead c.now) }
{
    match kind {
        FacetKind::Text => at_text_facet(c),
        FacetKind::Number => at_number_facet(c),
        FacetKind::Any => at_facet(c),
    }
}

/// A facet of this kind, which goes behind others.
pub fn facet_of(
    c: &mut Cursor<'_>,
    names: &Names<'_>,
    kind: FacetKind,
    datatype: Option<&Text>,
    fs: &mut Vec<Facet>,
) -> Result<(), Stop>
    requires so_far { IsSound (option_copied datatype) fs.old.items }
    ensures gives { Gives (λ x. fs.new.items) result (ahead c.new) (facet_of true (option_copied datatype.entry) kind fs.old.items (ahead c.old)) }
    ensures sound { OnOk result (IsSound (option_copied datatype.entry) fs.new.items) }
    ensures source { source_in c.new ≡ source_in c.old }
{
    match kind {
        FacetKind::Text => text_facet(c, names, datatype, fs),
        FacetKind::Number => number_facet(c, names, datatype, fs),
        FacetKind::Any => facet(c, names, datatype, fs),
    }
}

/// All further facets of this kind.
pub fn facets(
    c: &mut Cursor<'_>,
    names: &Names<'_>,
    kind: FacetKind,
    datatype: Option<&Text>,
    fs: &mut Vec<Facet>,
) -> Result<(), Stop>
    requires so_far { IsSound (option_copied datatype) fs.old.items }
    ensures gives { Gives (λ x. fs.new.items) result (ahead c.new) (loop (is_among (firsts kind)) (facet_of true (option_copied datatype.entry) kind) fs.old.items (ahead c.old)) }
    ensures sound { OnOk result (IsSound (option_copied datatype.entry) fs.new.items) }
    ensures source { source_in c.new ≡ source_in c.old }
{
    while at_kind(c, kind) {
        facet_of(c, names, kind, datatype, fs)?;
    }
    Ok(())
}

/// The facets of this kind that stand next, in their order, or none where none stands there. It fails at the first that may not
/// stand beside the datatype or beside the others (ShEx 2.1, section 5.4).
pub fn all_facets(
    c: &mut Cursor<'_>,
    names: &Names<'_>,
    kind: FacetKind,
    datatype: Option<&Text>,
) -> Result<Vec<Facet>, Stop>
    ensures gives { Gives (λ fs. fs.items) result (ahead c.new) (loop (is_among (firsts kind)) (facet_of true (option_copied datatype.entry) kind) [] (ahead c.old)) }
    ensures sound { IfOk result (λ fs. IsSound (option_copied datatype.entry) fs.items) }
    ensures source { source_in c.new ≡ source_in c.old }
{
    let mut fs = Vec::new(names.alloc);
    facets(c, names, kind, datatype, &mut fs)?;
    Ok(fs)
}
