//! Stems that are kept in the order of their bytes, so that one that a text begins with is found by halving.

ghost use Rattle.std.specs.Prelude.{◌≡◌, ◌↔◌, Any, IfOk, IsTrue, OnOk};
ghost use Rattle.std.specs.List.Sorted.{IsPermutation, IsSorted};
ghost use Rattle.value_sets.specs.Stems.{HasPrefix};
ghost use Rattle.value_sets.specs.StemIndex.{AreApart, BeginsWithLast, IsCountUpto, Keeps, StandFor, by_bytes};

use crate::stems::has_prefix;
use rdf_terms::text::Text;
use std::alloc::{AllocError, Global};
use std::cmp::Ordering;

/// Stems in the order of their bytes, of which none begins with another.
#[derive(Debug, Drop)]
pub(crate) struct StemIndex {
    stems: Vec<Text>,
    ghost apart: { AreApart stems.items },
}

impl StemIndex {
    /// The stems, but for those that begin with another one.
    pub(crate) fn of(alloc: Global, stems: Vec<Text>) -> Result<StemIndex, AllocError>
        ensures { IfOk result (λ index. StandFor index.stems.items stems.items) }
    {
        let stems = kept(alloc, in_order(stems)?)?;
        Ok(StemIndex { stems })
    }

    /// Whether the text begins with one of the stems. It takes no memory.
    pub(crate) fn has(&self, text: &Text) -> bool
        ensures { IsTrue result ↔ Any (λ stem. HasPrefix stem text.now) self.now.stems.items }
    {
        let stems = self.stems.as_slice();
        begins_with_last(&stems[..count_upto(stems, text)], text)
    }
}

/// The stems in the order of their bytes.
fn in_order(mut stems: Vec<Text>) -> Result<Vec<Text>, AllocError>
    ensures sorted { IfOk result (λ sorted. IsSorted by_bytes sorted.items) }
    ensures same { IfOk result (λ sorted. IsPermutation stems.items sorted.items) }
{
    stems.sort_by(compare)?;
    Ok(stems)
}

/// Compares two texts by their bytes, a proper prefix first.
fn compare(one: &Text, other: &Text) -> Ordering
    ensures { result ≡ by_bytes one.now other.now }
{
    one.as_str().cmp(other.as_str())
}

/// The stems that begin with none before them.
fn kept(alloc: Global, sorted: Vec<Text>) -> Result<Vec<Text>, AllocError>
    requires { IsSorted by_bytes sorted.items }
    ensures apart { IfOk result (λ kept. AreApart kept.items) }
    ensures all { IfOk result (λ kept. StandFor kept.items sorted.items) }
{
    let mut kept = Vec::new(alloc);
    for stem in sorted {
        keep(&mut kept, stem)?;
    }
    Ok(kept)
}

/// Keeps a stem, where it does not begin with the last one that is kept.
fn keep(kept: &mut Vec<Text>, stem: Text) -> Result<(), AllocError>
    ensures { OnOk result (Keeps kept.old.items stem kept.new.items) }
{
    if !begins_with_last(kept.as_slice(), &stem) {
        kept.push(stem)?;
    }
    Ok(())
}

/// Whether there is a last stem, and the text begins with it.
fn begins_with_last(stems: &[Text], text: &Text) -> bool
    ensures { IsTrue result ↔ BeginsWithLast stems.now text.now }
{
    stems.last().is_some_and(|stem| has_prefix(stem, text))
}

/// How many of the stems are not behind the text, found by halving.
fn count_upto(stems: &[Text], text: &Text) -> usize
    requires { AreApart stems.now }
    ensures { IsCountUpto stems.now text.now result }
{
    stems.partition_point(|stem| !compare(text, stem).is_lt())
}
