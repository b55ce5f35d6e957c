//! The lines of a proof's text, one by one.

ghost use Rattle.std.specs.Prelude.{◌≡◌, ◌==◌, ◌-◌, ◌↔◌, IsTrue, List, ℕ, length, position};
ghost use Rattle.proof_file.specs.Text.{line_text};
ghost use Rattle.proof_file.specs.Reading.{Reads};
ghost use Rattle.proof_file.specs.declared.Proof.{Proof};
ghost use Rattle.proof_file.specs.declared.lines.Stage.TheVariants as Stages;
ghost use Rattle.proof_file.specs.Reader.{Follows, IsBehind, IsNext, HasNoEnd, IsFirstLine, IsHeading, IsPast, IsFew, IsLast, IsOpening, Steps, IsEndBefore, Heading, Where, heading, behind, Stands, Goes, Opens, Shortens, next_stage, next_last};

use crate::Record;
use crate::fields::Stop;
use crate::head::Part;
use crate::line::{Line, read_line};
use std::alloc::Global;
use std::cmp::Ordering;
use std::str;

/// The first line of a proof without a head, with its line feed.
const PLAIN: &[u8] = b"shex-proof 1\n";

/// The first line of a proof with a head, with its line feed.
const HEADED: &[u8] = b"shex-proof 2\n";

/// The last line, without its line feed.
const END: &[u8] = b"end";

/// What lines may follow.
#[derive(Clone, Copy, Debug)]
pub(crate) enum Stage {
    /// Before the digest of the schema.
    Head,
    /// Behind the digest of the schema, and those of imports.
    Imports,
    /// Behind the digests of all files.
    Files,
    /// Behind the head, if there is one, and this many node lines.
    Nodes(u32),
    /// Behind the line of a section of this stratum.
    Section(u32),
    /// In a section of this stratum, behind a record of this node and this Shape.
    Record(u32, u32, u32),
    /// Behind a claim.
    Claims,
    /// Behind the last line.
    Ended,
    /// Where the text is none of a proof.
    Failed,
}

/// What a reader of lines answers.
#[derive(Debug, Drop)]
pub enum Next {
    /// The next line.
    Line(Line),
    /// The bytes are the text of a proof, and all its lines are given.
    End,
    /// The bytes are the text of no proof, and cease to be one at this place, counted in bytes from 0.
    Bad(u64),
    /// Memory is wanting.
    Memory,
}

/// A reader of the lines of a proof's text.
#[derive(Drop)]
pub struct Lines<'a> {
    whole: &'a [u8],
    rest: &'a [u8],
    last: &'a [u8],
    stage: Stage,
}

/// What stands at the head of what is left.
#[derive(Debug, Drop)]
pub(crate) enum Step<'a> {
    /// A line that may follow, its text, and what follows it.
    Line(Line, &'a [u8], &'a [u8]),
    /// The last line, and nothing more.
    End,
    /// What is none of a proof.
    Bad(&'a [u8]),
    /// Memory is wanting.
    Memory,
}

/// Whether the line, whose text this is, may follow the stage, where `last` is the text of the last node line.
fn follows(stage: Stage, last: &[u8], line: &Line, text: &[u8]) -> bool
    requires { line_text line.now ≡ text.now }
    ensures { IsTrue result ↔ Follows stage last.now line.now }
{
    match stage {
        Stage::Head => matches!(line, Line::Digest(Part::Schema, _)),
        Stage::Imports => matches!(line, Line::Digest(Part::Import | Part::Data, _)),
        Stage::Files => matches!(line, Line::Strata(_)),
        Stage::Nodes(n) => follows_nodes(n, last, line, text),
        Stage::Section(k) => follows_section(k, line),
        Stage::Record(k, node, shape) => follows_record(k, node, shape, line),
        Stage::Claims => matches!(line, Line::Claim(_)),
        Stage::Ended | Stage::Failed => false,
    }
}

/// Whether the line, whose text this is, may follow this many node lines, the last of which has the text `last`.
fn follows_nodes(n: u32, last: &[u8], line: &Line, text: &[u8]) -> bool
    requires { line_text line.now ≡ text.now }
    ensures { IsTrue result ↔ Follows (Stages.Nodes n) last.now line.now }
{
    match line {
        Line::Node(_) => n < 16_777_216 && last.cmp(&text) == Ordering::Less,
        Line::Section(_) | Line::Claim(_) => true,
        _ => false,
    }
}

/// Whether the line may follow that of a section of this stratum.
fn follows_section(stratum: u32, line: &Line) -> bool
    ensures { (last : List ℕ) → IsTrue result ↔ Follows (Stages.Section stratum) last line.now }
{
    match line {
        Line::Section(next) => stratum < *next,
        Line::Record(_) | Line::Claim(_) => true,
        _ => false,
    }
}

/// Whether the line may follow a record of this node and this Shape, in a section of this stratum.
fn follows_record(stratum: u32, node: u32, shape: u32, line: &Line) -> bool
    ensures { (last : List ℕ) → IsTrue result ↔ Follows (Stages.Record stratum node shape) last line.now }
{
    match line {
        Line::Section(next) => stratum < *next,
        Line::Record(next) => is_behind(node, shape, next),
        Line::Claim(_) => true,
        _ => false,
    }
}

/// Whether the record comes behind one of this node and this Shape.
fn is_behind(node: u32, shape: u32, next: &Record) -> bool
    ensures { IsTrue result ↔ IsBehind node shape next.now }
{
    if node == next.node {
        shape < next.shape
    } else {
        node < next.node
    }
}

/// The place of the first line feed.
fn line_end(bytes: &[u8]) -> Option<usize>
    ensures { result ≡ position (λ b. b == 10) bytes.now }
{
    bytes.iter().position(|b| *b == b'\n')
}

/// The first line, and what follows its line feed.
fn cut_line(bytes: &[u8]) -> Option<(&[u8], &[u8])>
    ensures { IsFirstLine result bytes.now }
{
    match line_end(bytes) {
        Some(end) => Some((&bytes[..end], &bytes[end + 1..])),
        None => None,
    }
}

/// The line of this text, where it may follow.
fn read_next(alloc: Global, stage: Stage, last: &[u8], text: &[u8]) -> Result<Line, Stop>
    requires { HasNoEnd text.now }
    ensures { Reads line_text (IsNext stage last.now) text.now result }
{
    let Ok(characters) = str::from_utf8(text) else {
        return Err(Stop::Bad);
    };
    let line = read_line(alloc, characters)?;
    if follows(stage, last, &line, text) {
        Ok(line)
    } else {
        Err(Stop::Bad)
    }
}

/// What stands at the head of what is left, `rest`.
fn next_step<'a>(alloc: Global, stage: Stage, last: &[u8], rest: &'a [u8]) -> Step<'a>
    ensures { Steps stage last.now rest.now result }
{
    let Some((text, more)) = cut_line(rest) else {
        return Step::Bad(rest);
    };
    if is_last(stage, text) {
        return end_before(more);
    }
    match read_next(alloc, stage, last, text) {
        Ok(line) => Step::Line(line, text, more),
        Err(Stop::Bad) => Step::Bad(rest),
        Err(Stop::Memory) => Step::Memory,
    }
}

/// Whether the text is that of the last line, which may follow the stage.
fn is_last(stage: Stage, text: &[u8]) -> bool
    ensures { IsTrue result ↔ IsLast stage text.now }
{
    match stage {
        Stage::Head | Stage::Imports | Stage::Files => false,
        _ => text == END,
    }
}

/// What the last line is, where this follows it.
fn end_before(more: &[u8]) -> Step<'_>
    ensures { IsEndBefore more.now result }
{
    if more.is_empty() {
        Step::End
    } else {
        Step::Bad(more)
    }
}

/// The stage behind the line, which may follow this stage.
fn stage_behind(stage: Stage, line: &Line) -> Stage
    requires { IsFew stage line.now }
    ensures { result ≡ next_stage stage line.now }
{
    match (stage, line) {
        (Stage::Head, Line::Digest(Part::Schema, _)) => Stage::Imports,
        (Stage::Imports, Line::Digest(Part::Data, _)) => Stage::Files,
        (Stage::Files, Line::Strata(_)) => Stage::Nodes(0),
        (Stage::Nodes(n), Line::Node(_)) => Stage::Nodes(n + 1),
        (_, Line::Section(stratum)) => Stage::Section(*stratum),
        (Stage::Section(stratum) | Stage::Record(stratum, _, _), Line::Record(record)) =>
            Stage::Record(stratum, record.node, record.shape),
        (_, Line::Claim(_)) => Stage::Claims,
        _ => stage,
    }
}

/// The text of the last node line behind the line of this text.
fn last_behind<'a>(last: &'a [u8], line: &Line, text: &'a [u8]) -> &'a [u8]
    requires { line_text line.now ≡ text.now }
    ensures { result.now ≡ next_last last.now line.now }
{
    match line {
        Line::Node(_) => text,
        _ => last,
    }
}

/// How many bytes of `whole` are not left.
fn place(whole: &[u8], rest: &[u8]) -> u64
    ensures { result ≡ length whole.now - length rest.now }
{
    whole.len().saturating_sub(rest.len()) as u64
}

/// What follows the first line of a proof's text, and the stage behind that line.
fn behind_first(bytes: &[u8]) -> Option<(Stage, &[u8])>
    ensures { IsOpening result bytes.now }
{
    if let Some(rest) = bytes.strip_prefix(PLAIN) {
        return Some((Stage::Nodes(0), rest));
    }
    match bytes.strip_prefix(HEADED) {
        Some(rest) => Some((Stage::Head, rest)),
        None => None,
    }
}

impl<'a> Lines<'a> {
    /// A reader of these bytes, behind the line that names the format.
    pub fn new(bytes: &'a [u8]) -> Lines<'a>
        ensures { Opens result bytes.now }
    {
        match behind_first(bytes) {
            Some((stage, rest)) => Lines {
                whole: bytes,
                rest,
                last: &[],
                stage,
            },
            None => Lines {
                whole: bytes,
                rest: bytes,
                last: &[],
                stage: Stage::Failed,
            },
        }
    }

    /// The next line, or where the bytes end or cease to be the text of a proof. After `End` and `Bad` the same is given
    /// again; after `Memory` the reader is as it was.
    pub fn next(&mut self, alloc: Global) -> Next
        ensures goes { (w : Where) → Stands self.old w → Goes w self.old self.new result }
        ensures whole { self.new.whole.now ≡ self.old.whole.now }
        ensures shorter { Shortens self.old self.new result }
    {
        match self.stage {
            Stage::Ended => Next::End,
            Stage::Failed => Next::Bad(place(self.whole, self.rest)),
            _ => self.advance(alloc),
        }
    }

    /// The next line, where the bytes have neither ended nor failed.
    fn advance(&mut self, alloc: Global) -> Next
        ensures head { (h : Heading) → IsHeading self.old h → Goes (heading h) self.old self.new result }
        ensures goes { (p : Proof) → IsPast self.old p → Goes (behind p) self.old self.new result }
        ensures whole { self.new.whole.now ≡ self.old.whole.now }
        ensures shorter { Shortens self.old self.new result }
    {
        match next_step(alloc, self.stage, self.last, self.rest) {
            Step::Line(line, text, rest) => {
                self.last = last_behind(self.last, &line, text);
                self.stage = stage_behind(self.stage, &line);
                self.rest = rest;
                Next::Line(line)
            }
            Step::End => {
                self.stage = Stage::Ended;
                Next::End
            }
            Step::Bad(rest) => {
                self.rest = rest;
                self.stage = Stage::Failed;
                Next::Bad(place(self.whole, rest))
            }
            Step::Memory => Next::Memory,
        }
    }
}
