//! Which lines of a shard are none of a part's.

ghost use Rattle.std.specs.Prelude.{◌≡◌, ◌++◌, ◌∷◌, [], ℕ, IfOk, List, OnOk, map};
ghost use Rattle.shard_checks.specs.Cover.{outside};
ghost use Rattle.shard_checks.specs.Lines.{lines_of};
ghost use Rattle.shard_checks.specs.Sets.{Knows};

use crate::covers::set_of;
use crate::line_set::LineSet;
use crate::lines::lines_of;
use std::alloc::{AllocError, Global};

/// Adds the line, where it is not in the set.
fn note<'a>(left: &mut Vec<&'a [u8]>, line: &'a [u8], set: &LineSet<'_>) -> Result<(), AllocError>
    ensures { OnOk result ((texts : List (List ℕ)) → Knows set.now.lines.items texts →
        map (λ l. l.now) left.new.items ≡ map (λ l. l.now) left.old.items ++ outside texts (line.now ∷ [])) }
{
    if !set.has(line) {
        left.push(line)?;
    }
    Ok(())
}

/// Those of the lines that are not in the set.
fn left_of<'a>(
    alloc: Global,
    lines: &[&'a [u8]],
    set: &LineSet<'_>,
) -> Result<Vec<&'a [u8]>, AllocError>
    ensures { IfOk result (λ v. (texts : List (List ℕ)) → Knows set.now.lines.items texts → map (λ l. l.now) v.items ≡ outside texts (map (λ l. l.now) lines.now)) }
{
    let mut left = Vec::new(alloc);
    for line in lines {
        note(&mut left, line, set)?;
    }
    Ok(left)
}

/// The lines of a shard that are none of the part's, in their order. Where one part after the other leaves none in the end, each line of
/// the shard is one of some part.
pub fn lines_left<'a>(
    alloc: Global,
    shard: &'a [u8],
    part: &[u8],
) -> Result<Vec<&'a [u8]>, AllocError>
    ensures { IfOk result (λ v. map (λ l. l.now) v.items ≡ outside (lines_of part.now) (lines_of shard.now)) }
{
    let set = set_of(alloc, part)?;
    let lines = lines_of(alloc, shard)?;
    left_of(alloc, lines.as_slice(), &set)
}
