//! The numbers that stand in triples.

ghost use Rattle.std.specs.Prelude.{◌≡◌, ◌<◌, All, Contains, IfOk, OnOk, length};
ghost use Rattle.rdf_terms.specs.declared.terms.TermId.{TermId};
ghost use Rattle.graph_index.specs.Numbers.{AreNoted, IsOf};
ghost use Rattle.graph_index.specs.Places.{IsBelow};

use rdf_terms::terms::{TermId, Triple};
use std::alloc::{AllocError, Global};

/// One more than the greatest number that stands in the triples, or 0 where there are none.
pub(crate) fn table_len(triples: &[Triple]) -> usize
    ensures { All (IsBelow result) triples.now }
{
    let mut len = 0;
    for triple in triples {
        len = len.max(len_for(triple));
    }
    len
}

/// One more than the greatest number of the triple.
fn len_for(triple: &Triple) -> usize
    ensures { IsBelow result triple.now }
{
    triple.s.0.max(triple.p.0).max(triple.o.0) as usize + 1
}

/// The numbers that stand in the triples, each once; they are below `len`.
pub(crate) fn numbers_in(
    alloc: Global,
    len: usize,
    triples: &[Triple],
) -> Result<Vec<TermId>, AllocError>
    requires { All (IsBelow len) triples.now }
    ensures all { IfOk result (λ ids. All (IsOf ids.items) triples.now) }
    ensures within { IfOk result (λ ids. (n : TermId) → Contains ids.items n → n.0 < len) }
{
    let mut marks = vec![in alloc; false; len]?;
    let mut ids = Vec::new(alloc);
    for triple in triples {
        note_all(&mut marks, &mut ids, triple)?;
    }
    Ok(ids)
}

/// Takes the numbers of a triple up into the list, each where it is not marked yet, and marks them.
fn note_all(marks: &mut Vec<bool>, ids: &mut Vec<TermId>, triple: &Triple) -> Result<(), AllocError>
    requires within { IsBelow (length marks.old.items) triple.now }
    requires noted { AreNoted marks.old.items ids.old.items }
    ensures size { OnOk result (length marks.new.items ≡ length marks.old.items) }
    ensures noted { OnOk result (AreNoted marks.new.items ids.new.items) }
    ensures held { OnOk result (IsOf ids.new.items triple.now) }
    ensures kept { OnOk result ((n : TermId) → Contains ids.old.items n → Contains ids.new.items n) }
{
    note(marks, ids, triple.s)?;
    note(marks, ids, triple.p)?;
    note(marks, ids, triple.o)?;
    Ok(())
}

/// Takes a number up into the list, where it is not marked yet, and marks it.
fn note(marks: &mut Vec<bool>, ids: &mut Vec<TermId>, n: TermId) -> Result<(), AllocError>
    requires within { n.0 < length marks.old.items }
    requires noted { AreNoted marks.old.items ids.old.items }
    ensures size { OnOk result (length marks.new.items ≡ length marks.old.items) }
    ensures noted { OnOk result (AreNoted marks.new.items ids.new.items) }
    ensures held { OnOk result (Contains ids.new.items n) }
    ensures kept { OnOk result ((m : TermId) → Contains ids.old.items m → Contains ids.new.items m) }
{
    if !marks[n.0 as usize] {
        ids.push(n)?;
        marks[n.0 as usize] = true;
    }
    Ok(())
}
