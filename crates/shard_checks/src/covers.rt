//! Whether shards have what a part has at some nodes.

ghost use Rattle.std.specs.Prelude.{◌≡◌, ◌++◌, ◌∷◌, [], ℕ, IfOk, List, OnOk, map, slice_get};
ghost use Rattle.std.specs.Option.{option_map};
ghost use Rattle.shard_checks.specs.Cover.{missing, read_back_in};
ghost use Rattle.shard_checks.specs.Lines.{lines_of};
ghost use Rattle.shard_checks.specs.Sets.{Knows};

use crate::compared::Compared;
use crate::line_set::LineSet;
use crate::lines::lines_of;
use std::alloc::{AllocError, Global};

/// The set of the lines of a text.
pub(crate) fn set_of(alloc: Global, text: &[u8]) -> Result<LineSet<'_>, AllocError>
    ensures { IfOk result (λ s. Knows s.lines.items (lines_of text.now)) }
{
    let lines = lines_of(alloc, text)?;
    Ok(LineSet::of(lines))
}

/// Adds the predicate that the line of a way says to be read back, if it says that of one.
fn note_read_back<'a>(back: &mut Vec<&'a [u8]>, line: &'a [u8]) -> Result<(), AllocError>
    ensures { OnOk result (map (λ l. l.now) back.new.items ≡ map (λ l. l.now) back.old.items ++ read_back_in (line.now ∷ [])) }
{
    if let Some(predicate) = line.strip_prefix(b"read ^") {
        back.push(predicate)?;
    }
    Ok(())
}

/// The predicates that lines of ways say to be read back.
fn read_back_in<'a>(alloc: Global, lines: &[&'a [u8]]) -> Result<Vec<&'a [u8]>, AllocError>
    ensures { IfOk result (λ v. map (λ l. l.now) v.items ≡ read_back_in (map (λ l. l.now) lines.now)) }
{
    let mut back = Vec::new(alloc);
    for line in lines {
        note_read_back(&mut back, line)?;
    }
    Ok(back)
}

/// The set of the predicates that a text of lines of ways says to be read back.
fn read_back_of(alloc: Global, ways: &[u8]) -> Result<LineSet<'_>, AllocError>
    ensures { IfOk result (λ s. Knows s.lines.items (read_back_in (lines_of ways.now))) }
{
    let lines = lines_of(alloc, ways)?;
    let back = read_back_in(alloc, lines.as_slice())?;
    Ok(LineSet::of(back))
}

/// A part of data: its lines, and the predicates that are read back.
#[derive(Drop)]
pub struct Part<'a> {
    lines: Vec<&'a [u8]>,
    read_back: LineSet<'a>,
}

impl<'a> Part<'a> {
    ghost use Rattle.shard_checks.specs.Sets.{IsPart};

    /// The part with the lines of a text, where the lines of ways in another say which predicates are read back.
    pub fn of(alloc: Global, text: &'a [u8], ways: &'a [u8]) -> Result<Part<'a>, AllocError>
        ensures { IfOk result (λ p. IsPart p (lines_of text.now) (read_back_in (lines_of ways.now))) }
    {
        let read_back = read_back_of(alloc, ways)?;
        let lines = lines_of(alloc, text)?;
        Ok(Part { lines, read_back })
    }

    /// The first line of the part that is read at one of the nodes and that the shard has not, if there is one.
    pub fn first_missing(
        &self,
        alloc: Global,
        nodes: &[u8],
        shard: &[u8],
    ) -> Result<Option<&'a [u8]>, AllocError>
        ensures { IfOk result (λ r. (lines back : List (List ℕ)) → IsPart self.now lines back →
            option_map (λ l. l.now) r ≡ slice_get (missing lines (lines_of shard.now) (lines_of nodes.now) back) 0) }
    {
        let nodes = set_of(alloc, nodes)?;
        let shard = set_of(alloc, shard)?;
        let compared = Compared {
            nodes: &nodes,
            read_back: &self.read_back,
            shard: &shard,
        };
        Ok(compared.first_missing(self.lines.as_slice()))
    }
}
