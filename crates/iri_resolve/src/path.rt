//! Paths: merging, and removal of dot segments.

ghost use Rattle.std.specs.Prelude.{◌≡◌, ◌++◌, [], ◌∷◌, IfOk, OnOk, string_bytes, if◌then◌else◌};
ghost use Rattle.iri_resolve.specs.Text.{slash, until_last};
ghost use Rattle.iri_resolve.specs.Reference.{components_lent};
ghost use Rattle.iri_resolve.specs.Dots.{is_dot_segment, segments_of, path_of_segments, without_dot_segments, with_read};
ghost use Rattle.iri_resolve.specs.Resolution.{up_to_last_slash, merged_path};

use crate::parts::Parts;
use std::alloc::{AllocError, Global};

/// The path without its dot segments (RFC 3986 section 5.2.4).
pub(crate) fn remove_dot_segments(alloc: Global, path: &str) -> Result<String, AllocError>
    ensures { IfOk result (λ t. string_bytes t ≡ without_dot_segments path.now) }
{
    let relative = skip_leading_dots(path);
    let Some((first, later)) = relative.split_once('/') else {
        return String::from_str(alloc, relative);
    };
    let mut output = String::from_str(alloc, first)?;
    let mut rest = later;
    while let Some((segment, behind)) = rest.split_once('/') {
        read_segment(&mut output, segment)?;
        rest = behind;
    }
    read_last_segment(&mut output, rest)?;
    Ok(output)
}

/// The path behind the dot segments that a relative path begins with.
fn skip_leading_dots(path: &str) -> &str
    ensures { path_of_segments (segments_of result.now) ≡ without_dot_segments path.now }
{
    let mut rest = path;
    while let Some((segment, behind)) = rest.split_once('/') {
        if !is_dot_segment(segment) {
            return rest;
        }
        rest = behind;
    }
    if is_dot_segment(rest) { "" } else { rest }
}

/// Reads one more segment of a path whose text so far is `output`: `.` adds nothing, `..` takes back
/// the last segment, and any other is put behind a `/`.
fn read_segment(output: &mut String, segment: &str) -> Result<(), AllocError>
    ensures { OnOk result (string_bytes output.new
        ≡ with_read (string_bytes output.old) segment.now) }
{
    if segment == "." {
        return Ok(());
    }
    if segment == ".." {
        cut_last_segment(output);
        return Ok(());
    }
    output.push('/')?;
    output.push_str(segment)
}

/// Reads the last segment of a path: a dot segment leaves a `/` at the end.
fn read_last_segment(output: &mut String, segment: &str) -> Result<(), AllocError>
    ensures { OnOk result (string_bytes output.new
        ≡ with_read (string_bytes output.old) segment.now
        ++ (if is_dot_segment segment.now then slash ∷ [] else [])) }
{
    read_segment(output, segment)?;
    if is_dot_segment(segment) {
        output.push('/')?;
    }
    Ok(())
}

/// Cuts off the last segment with the `/` before it, or all where there is none.
fn cut_last_segment(output: &mut String)
    ensures { string_bytes output.new ≡ until_last slash (string_bytes output.old) }
{
    output.truncate(output.rfind('/').unwrap_or(0));
}

/// Whether a segment is `.` or `..`.
fn is_dot_segment(segment: &str) -> bool
    ensures { result ≡ is_dot_segment segment.now }
{
    segment == "." || segment == ".."
}

/// A relative path in the place of the last segment of the base's path (RFC 3986 section 5.2.3).
pub(crate) fn merge(alloc: Global, base: &Parts, path: &str) -> Result<String, AllocError>
    ensures { IfOk result (λ t. string_bytes t ≡ merged_path (components_lent base.now) path.now) }
{
    if base.authority.is_some() && base.path.is_empty() {
        return joined(alloc, "/", path);
    }
    joined(alloc, up_to_last_slash(base.path), path)
}

/// A path without what stands behind its last `/`.
fn up_to_last_slash(path: &str) -> &str
    ensures { result.now ≡ up_to_last_slash path.now }
{
    match path.rfind('/') {
        Some(at) => &path[..=at],
        None => "",
    }
}

/// One text behind another.
fn joined(alloc: Global, front: &str, rest: &str) -> Result<String, AllocError>
    ensures { IfOk result (λ t. string_bytes t ≡ front.now ++ rest.now) }
{
    let mut text = String::from_str(alloc, front)?;
    text.push_str(rest)?;
    Ok(text)
}
