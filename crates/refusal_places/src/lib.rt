//! Where a text is wrong: the line and the column of a place, and the lines that show it.
#![tactic(auto)]

ghost use Rattle.std.specs.Prelude.{◌≡◌, ◌≤◌, ◌<◌, ◌-◌, ◌+◌, ◌^◌, ◌++◌, ◌==◌, OnOk, drop, length, take};
ghost use Rattle.std.specs.List.{filter, flat_map};
ghost use Rattle.refusal_places.specs.Places.{begins_character, characters_in, column_of, first_line};
ghost use Rattle.refusal_places.specs.Places.{is_line_feed, last_line, line_before, line_behind, line_of};
ghost use Rattle.refusal_places.specs.Texts.{blank_for, extent, first_characters, has_mark, last_characters};
ghost use Rattle.refusal_places.specs.Texts.{located_text, marked_text, place_text, shown_before, shown_behind, shown_text};

use std::alloc::{AllocError, Global};

/// How many characters a line has at most that is shown whole.
const WHOLE: usize = 200;

/// How many characters are shown on either side of the place in a longer line.
const PART: usize = 100;

/// A byte order mark in UTF-8.
const MARK: &[u8] = b"\xEF\xBB\xBF";

/// A place in a text, counted from 1.
#[derive(Clone, Copy, Debug, PartialEq, Eq)]
pub struct Place {
    /// One more than the line feeds before the place.
    pub line: usize,
    /// One more than the characters before the place in its line.
    pub column: usize,
}

/// Whether the byte ends a line.
fn is_line_feed(byte: u8) -> bool
    ensures { result ≡ is_line_feed byte }
{
    byte == b'\n'
}

/// Whether the byte begins a character of UTF-8.
fn begins_character(byte: u8) -> bool
    ensures { result ≡ begins_character byte }
{
    byte < 0x80 || byte >= 0xC0
}

/// How many line feeds there are.
fn count_line_feeds(text: &[u8]) -> usize
    ensures count { result ≡ length (filter is_line_feed text.now) }
    ensures few { result ≤ length text.now }
{
    text.iter().filter(|byte| is_line_feed(**byte)).count()
}

/// How many characters begin in the text.
fn count_characters(text: &[u8]) -> usize
    ensures count { result ≡ characters_in text.now }
    ensures few { result ≤ length text.now }
{
    text.iter().filter(|byte| begins_character(**byte)).count()
}

/// What stands behind the last line feed, and all where there is none.
fn last_line(text: &[u8]) -> &[u8]
    ensures line { result.now ≡ last_line text.now }
    ensures short { length result.now ≤ length text.now }
{
    let size = text
        .iter()
        .rev()
        .take_while(|byte| !is_line_feed(**byte))
        .count();
    &text[text.len() - size..]
}

/// What stands before the first line feed, and all where there is none.
fn first_line(text: &[u8]) -> &[u8]
    ensures line { result.now ≡ first_line text.now }
    ensures short { length result.now ≤ length text.now }
{
    let size = text.iter().take_while(|byte| !is_line_feed(**byte)).count();
    &text[..size]
}

/// The line and the column of the place behind so many bytes of the text.
pub fn place_of(text: &[u8], at: usize) -> Place
    requires within { at ≤ length text.now }
    requires room { length text.now < 2 ^ 64 - 1 }
    ensures line { result.line ≡ line_of text.now at }
    ensures column { result.column ≡ column_of text.now at }
{
    let before = &text[..at];
    let line = count_line_feeds(before) + 1;
    let column = count_characters(last_line(before)) + 1;
    Place { line, column }
}

/// How many bytes the first so many characters have, and how many there are where there are fewer characters.
fn extent(count: usize, text: &[u8]) -> usize
    ensures size { result ≡ extent count text.now }
    ensures short { result ≤ length text.now }
{
    let mut left = count;
    let mut size = 0;
    for byte in text {
        if begins_character(*byte) {
            if left == 0 {
                return size;
            }
            left -= 1;
        }
        size += 1;
    }
    size
}

/// The first so many characters.
fn first_characters(count: usize, text: &[u8]) -> &[u8]
    ensures { result.now ≡ first_characters count text.now }
{
    &text[..extent(count, text)]
}

/// The last so many characters.
fn last_characters(count: usize, text: &[u8]) -> &[u8]
    ensures { result.now ≡ last_characters count text.now }
{
    let skipped = count_characters(text).saturating_sub(count);
    &text[extent(skipped, text)..]
}

/// What is shown of a line before a place and behind it.
#[derive(Clone, Copy)]
struct Shown<'a> {
    before: &'a [u8],
    behind: &'a [u8],
}

/// What is shown of the line of the place behind so many bytes of the text.
fn line_around(text: &[u8], at: usize) -> Shown<'_>
    requires { at ≤ length text.now }
    ensures before { result.before.now ≡ shown_before text.now at }
    ensures behind { result.behind.now ≡ shown_behind text.now at }
{
    let before = last_line(&text[..at]);
    let behind = first_line(&text[at..]);
    if count_characters(before) + count_characters(behind) > WHOLE {
        Shown {
            before: last_characters(PART, before),
            behind: first_characters(PART, behind),
        }
    } else {
        Shown { before, behind }
    }
}

/// What stands under a byte before the caret.
fn blank_for(byte: u8) -> &'static [u8]
    ensures { result.now ≡ blank_for byte }
{
    if byte == b'\t' {
        b"\t"
    } else if begins_character(byte) {
        b" "
    } else {
        b""
    }
}

/// Appends what stands under a text before the caret.
fn push_blanks(text: &[u8], out: &mut Vec<u8>) -> Result<(), AllocError>
    ensures { OnOk result (out.new.items ≡ out.old.items ++ flat_map blank_for text.now) }
{
    for byte in text {
        out.extend_from_slice(blank_for(*byte))?;
    }
    Ok(())
}

/// Appends the line of a place and a caret under the place.
fn push_line(text: &[u8], at: usize, out: &mut Vec<u8>) -> Result<(), AllocError>
    requires { at ≤ length text.now }
    ensures { OnOk result (out.new.items ≡ out.old.items ++ shown_text text.now at) }
{
    let shown = line_around(text, at);
    out.extend_from_slice(shown.before)?;
    out.extend_from_slice(shown.behind)?;
    out.extend_from_slice(b"\n")?;
    push_blanks(shown.before, out)?;
    out.extend_from_slice(b"^\n")
}

/// Whether the text begins with a byte order mark.
fn has_mark(text: &[u8]) -> bool
    ensures { result ≡ has_mark text.now }
{
    text.starts_with(MARK)
}

/// Appends the line of a place and a caret under it, or words for a byte order mark.
fn push_marked(text: &[u8], at: usize, out: &mut Vec<u8>) -> Result<(), AllocError>
    requires { at ≤ length text.now }
    ensures { OnOk result (out.new.items ≡ out.old.items ++ marked_text text.now at) }
{
    if at == 0 {
        if has_mark(text) {
            return out.extend_from_slice(b"a byte order mark stands at the start\n");
        }
    }
    push_line(text, at, out)
}

/// Appends `NAME:LINE:COLUMN` and the lines that show the place behind so many bytes of the text.
fn push_located(
    alloc: Global,
    name: &str,
    text: &[u8],
    at: usize,
    out: &mut Vec<u8>,
) -> Result<(), AllocError>
    requires within { at ≤ length text.now }
    requires room { length text.now < 2 ^ 64 - 1 }
    ensures { OnOk result (out.new.items ≡ out.old.items ++ located_text name.now text.now at) }
{
    let place = place_of(text, at);
    let head = format!(in alloc; "{name}:{}:{}\n", place.line, place.column)?;
    out.extend_from_slice(head.as_bytes())?;
    push_marked(text, at, out)
}

/// Appends the lines that show the place behind so many bytes of the text of a file of this name: `NAME:LINE:COLUMN`, the line of the
/// text, of which no more than the 100 characters on either side where it has over 200, and a caret under the place; for a byte order
/// mark at the start, `NAME:1:1` and a line that says so. It appends nothing where the text ends before the place. It fails for want
/// of memory alone, and then some of the lines may be there.
pub fn push_place(
    alloc: Global,
    name: &str,
    text: &[u8],
    at: usize,
    out: &mut Vec<u8>,
) -> Result<(), AllocError>
    requires { length text.now < 2 ^ 64 - 1 }
    ensures { OnOk result (out.new.items ≡ out.old.items ++ place_text name.now text.now at) }
{
    if text.len() < at {
        return Ok(());
    }
    push_located(alloc, name, text, at, out)
}
