//! Lines that tell which ways a schema reads.

ghost use Rattle.std.specs.Prelude.{◌≡◌, ◌++◌, ◌∷◌, [], IfOk, OnOk};
ghost use Rattle.std.specs.List.{flat_map};
ghost use Rattle.schema_tree.specs.Loaded.{IsLoaded};
ghost use Rattle.schema_tree.specs.declared.schema.Schema.{Schema as Read};
ghost use Rattle.shard_checks.specs.WayLines.{AreReadSo, HasWays, TellsWays, predicates_in, reads_so, way_line, word_of};

use crate::ways::{Way, ways_read};
use crate::written::push_number;
use rdf_terms::order::put_in_order;
use rdf_terms::table::TermTable;
use rdf_terms::terms::TermId;
use schema_tree::schema::Schema;
use std::alloc::{AllocError, Global};

/// How a way is read.
#[derive(Clone, Copy, Debug, PartialEq, Eq)]
pub enum Reading {
    /// Along its triples, where a Shape is asked of the other end.
    Followed,
    /// Against its triples, where a Shape is asked of the other end.
    FollowedBack,
    /// Against its triples, whatever is asked of the other end.
    Back,
}

/// Whether a way is read so.
fn reads_so(reading: Reading, way: &Way) -> bool
    ensures { result ≡ reads_so reading way.now }
{
    match reading {
        Reading::Followed => way.followed && !way.inverse,
        Reading::FollowedBack => way.followed && way.inverse,
        Reading::Back => way.inverse,
    }
}

/// What stands before the predicate.
fn word_of(reading: Reading) -> &'static str
    ensures { result.now ≡ word_of reading }
{
    match reading {
        Reading::Followed => "follow ",
        Reading::FollowedBack => "follow ^",
        Reading::Back => "read ^",
    }
}

/// Adds the predicate of a way that is read so.
fn note(predicates: &mut Vec<TermId>, reading: Reading, way: &Way) -> Result<(), AllocError>
    ensures { OnOk result (predicates.new.items ≡ predicates.old.items ++ predicates_in reading (way.now ∷ [])) }
{
    if reads_so(reading, way) {
        predicates.push(way.predicate)?;
    }
    Ok(())
}

/// The predicates of the ways that are read so.
fn predicates_in(alloc: Global, ways: &[Way], reading: Reading) -> Result<Vec<TermId>, AllocError>
    ensures { IfOk result (λ v. v.items ≡ predicates_in reading ways.now) }
{
    let mut predicates = Vec::new(alloc);
    for way in ways {
        note(&mut predicates, reading, way)?;
    }
    Ok(predicates)
}

/// The predicates of the ways that are read so, each once, in the order of their texts.
fn predicates_read(
    alloc: Global,
    terms: &TermTable,
    ways: &[Way],
    reading: Reading,
) -> Result<Vec<TermId>, AllocError>
    ensures { IfOk result (λ v. (s : Read) → HasWays s ways.now → AreReadSo s terms.now reading v.items) }
{
    let mut predicates = predicates_in(alloc, ways, reading)?;
    put_in_order(terms, &mut predicates)?;
    Ok(predicates)
}

/// Appends the line of a predicate that is read so.
fn push_line(
    alloc: Global,
    terms: &TermTable,
    reading: Reading,
    predicate: TermId,
    out: &mut Vec<u8>,
) -> Result<(), AllocError>
    ensures { OnOk result (out.new.items ≡ out.old.items ++ way_line terms.now reading predicate) }
{
    out.extend_from_slice(word_of(reading).as_bytes())?;
    push_number(alloc, None, terms, predicate, out)?;
    out.push(b'\n')?;
    Ok(())
}

/// Appends the lines of predicates that are read so.
fn push_lines(
    alloc: Global,
    terms: &TermTable,
    reading: Reading,
    predicates: &[TermId],
    out: &mut Vec<u8>,
) -> Result<(), AllocError>
    ensures { OnOk result (out.new.items ≡ out.old.items ++ flat_map (way_line terms.now reading) predicates.now) }
{
    for predicate in predicates {
        push_line(alloc, terms, reading, *predicate, out)?;
    }
    Ok(())
}

/// The lines of predicates: of those that are followed, of those that are followed against their triples, and of those that are read back.
fn written(
    alloc: Global,
    terms: &TermTable,
    followed: &[TermId],
    followed_back: &[TermId],
    back: &[TermId],
) -> Result<Vec<u8>, AllocError>
    ensures { IfOk result (λ v. v.items ≡ flat_map (way_line terms.now Reading.Followed) followed.now
        ++ (flat_map (way_line terms.now Reading.FollowedBack) followed_back.now ++ flat_map (way_line terms.now Reading.Back) back.now)) }
{
    let mut out = Vec::new(alloc);
    push_lines(alloc, terms, Reading::Followed, followed, &mut out)?;
    push_lines(alloc, terms, Reading::FollowedBack, followed_back, &mut out)?;
    push_lines(alloc, terms, Reading::Back, back, &mut out)?;
    Ok(out)
}

/// The lines of the ways that a schema reads, each once: `follow <P>` where a Shape is asked of the objects of the triples of P,
/// `follow ^<P>` where one is asked of the subjects, and `read ^<P>` where P stands in an inverse triple constraint
/// (ShEx 2.1, section 5.5.2). They stand in the order of their bytes.
pub fn lines_of_ways(
    alloc: Global,
    schema: &Schema,
    terms: &TermTable,
) -> Result<Vec<u8>, AllocError>
    requires { IsLoaded schema.now }
    ensures { IfOk result (λ v. TellsWays schema.now terms.now v.items) }
{
    let all = ways_read(alloc, schema)?;
    let ways = all.as_slice();
    let followed = predicates_read(alloc, terms, ways, Reading::Followed)?;
    let followed_back = predicates_read(alloc, terms, ways, Reading::FollowedBack)?;
    let back = predicates_read(alloc, terms, ways, Reading::Back)?;
    written(
        alloc,
        terms,
        followed.as_slice(),
        followed_back.as_slice(),
        back.as_slice(),
    )
}
