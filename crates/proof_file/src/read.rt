//! Proofs from their text.

ghost use Rattle.std.specs.Prelude.{◌≡◌, ◌++◌, IfOk, IfErr, OnOk};
ghost use Rattle.proof_file.specs.declared.Proof.{Proof};
ghost use Rattle.proof_file.specs.Text.{ProofText};
ghost use Rattle.proof_file.specs.Faults.{FaultsAs};
ghost use Rattle.proof_file.specs.Reader.{AddsDigest, Grows, Heading, Leads, Where, no_lines, opened};
ghost use Rattle.proof_file.specs.Drafts.{IsDraft, IsDraftAt, IsDraftOf, IsHeadDraft, IsHeadingDraft, head_of, last_section};

use crate::head::{Digest256, Digests, Head, Part};
use crate::line::Line;
use crate::lines::{Lines, Next};
use crate::{Claim, Proof, Record, Section};
use rdf_terms::items::Items;
use rdf_terms::terms::Term;
use std::alloc::{AllocError, Global};
use std::error::Error;
use std::{fmt, mem};

/// Why bytes give no proof. It shows the text that a program prints for it.
#[derive(Debug, Drop, PartialEq, Eq)]
pub enum ReadError {
    /// The bytes are the text of no proof, and cease to be one at this place, counted in bytes from 0.
    Syntax(u64),
    /// Memory ran out.
    Memory,
}

impl fmt::Display for ReadError {
    ghost use Rattle.std.specs.Prelude.{Some};
    ghost use Rattle.proof_file.specs.Messages.{unread_text};

    ghost output = { λ e. Some (unread_text e) };

    fn fmt<W: fmt::Write>(&self, f: &mut fmt::Formatter<W>) -> fmt::Result {
        match self {
            ReadError::Syntax(at) => write!(f, "Syntax({at})"),
            ReadError::Memory => f.write_str("Memory"),
        }
    }
}

impl Error for ReadError {}

impl From<AllocError> for ReadError {
    ghost use Rattle.std.specs.Prelude.{◌≡◌};
    ghost use Rattle.proof_file.specs.declared.read.ReadError.TheVariants.{Memory};

    ghost from_gives = { λ _ e. e ≡ Memory };

    fn from(_error: AllocError) -> ReadError {
        ReadError::Memory
    }
}

/// What of a head is read so far.
#[derive(Drop)]
pub(crate) struct HeadDraft {
    schema: Option<Digest256>,
    imports: Vec<Digest256>,
    graph: Option<Digest256>,
    strata: Option<Items<u32>>,
}

impl HeadDraft {
    /// Adds a digest behind the last.
    fn add(&mut self, part: Part, digest: Digest256) -> Result<(), AllocError>
        ensures digest { OnOk result ((h more : Heading) → IsHeadDraft self.old h → AddsDigest h part digest more → IsHeadDraft self.new more) }
        ensures strata { self.new.strata ≡ self.old.strata }
    {
        match part {
            Part::Schema => {
                self.schema = Some(digest);
                Ok(())
            }
            Part::Import => {
                self.imports.push(digest)?;
                Ok(())
            }
            Part::Data => {
                self.graph = Some(digest);
                Ok(())
            }
        }
    }

    /// The head, if it is whole.
    fn finish(self) -> Option<Head>
        ensures { result ≡ head_of self.schema self.imports.items self.graph self.strata }
    {
        match (self.schema, self.graph, self.strata) {
            (Some(schema), Some(graph), Some(strata)) => Some(Head {
                files: Digests {
                    schema,
                    imports: Items::of(self.imports),
                    graph,
                },
                strata,
            }),
            _ => None,
        }
    }
}

/// What of a proof is read so far.
#[derive(Drop)]
pub(crate) struct Draft {
    head: HeadDraft,
    nodes: Vec<Term>,
    /// The sections before the last.
    sections: Vec<Section>,
    /// The stratum of the last section, if there is one.
    stratum: Option<u32>,
    /// The records of the last section.
    records: Vec<Record>,
    claims: Vec<Claim>,
}

impl Draft {
    /// The draft of a proof without lines, and of a head without lines.
    fn new(alloc: Global) -> Draft
        ensures plain { IsDraft result no_lines }
        ensures head { IsHeadingDraft result opened }
    {
        Draft {
            head: HeadDraft {
                schema: None,
                imports: Vec::new(alloc),
                graph: None,
                strata: None,
            },
            nodes: Vec::new(alloc),
            sections: Vec::new(alloc),
            stratum: None,
            records: Vec::new(alloc),
            claims: Vec::new(alloc),
        }
    }

    /// Adds a line behind the last.
    fn add(&mut self, alloc: Global, line: Line) -> Result<(), AllocError>
        ensures head { OnOk result ((h : Heading) (w : Where) → IsHeadingDraft self.old h → Leads line h w → IsDraftAt self.new w) }
        ensures body { OnOk result ((p q : Proof) → IsDraft self.old p → Grows p line q → IsDraft self.new q) }
    {
        match line {
            Line::Digest(part, digest) => {
                self.head.add(part, digest)?;
                Ok(())
            }
            Line::Strata(strata) => {
                self.head.strata = Some(strata);
                Ok(())
            }
            Line::Node(term) => {
                self.nodes.push(term)?;
                Ok(())
            }
            Line::Section(stratum) => {
                let records = mem::replace(&mut self.records, Vec::new(alloc));
                close(&mut self.sections, self.stratum, records)?;
                self.stratum = Some(stratum);
                Ok(())
            }
            Line::Record(record) => {
                self.records.push(record)?;
                Ok(())
            }
            Line::Claim(claim) => {
                self.claims.push(claim)?;
                Ok(())
            }
        }
    }

    /// The proof of the lines that were added.
    fn finish(self) -> Result<Proof, AllocError>
        ensures { IfOk result (λ q. (p : Proof) → IsDraft self p → q ≡ p) }
    {
        let Draft {
            head,
            nodes,
            mut sections,
            stratum,
            records,
            claims,
        } = self;
        close(&mut sections, stratum, records)?;
        Ok(Proof {
            head: head.finish(),
            nodes: Items::of(nodes),
            sections: Items::of(sections),
            claims: Items::of(claims),
        })
    }
}

/// Adds the last section, if there is one.
fn close(
    sections: &mut Vec<Section>,
    stratum: Option<u32>,
    records: Vec<Record>,
) -> Result<(), AllocError>
    ensures { OnOk result (sections.new.items ≡ sections.old.items ++ last_section stratum records.items) }
{
    match stratum {
        Some(stratum) => {
            sections.push(Section {
                stratum,
                records: Items::of(records),
            })?;
            Ok(())
        }
        None => Ok(()),
    }
}

/// Adds the lines of the bytes behind a draft without lines, where they are the text of a proof.
fn add_lines(alloc: Global, bytes: &[u8], draft: &mut Draft) -> Result<(), ReadError>
    requires plain { IsDraft draft.old no_lines }
    requires head { IsHeadingDraft draft.old opened }
    ensures found { OnOk result (IsDraftOf draft.new bytes.now) }
    ensures fault { IfErr result (FaultsAs bytes.now) }
{
    let mut lines = Lines::new(bytes);
    'lines: loop {
        match lines.next(alloc) {
            Next::Line(line) => draft.add(alloc, line)?,
            Next::End => return Ok(()),
            Next::Bad(at) => return Err(ReadError::Syntax(at)),
            Next::Memory => return Err(ReadError::Memory),
        }
    }
}

/// The proof of which the bytes are the text, in time linear in their number. Fails with `Syntax` where they are the text of
/// none, at the start of the first line with which they begin none, and with `Memory` where memory is wanting.
pub fn read(alloc: Global, bytes: &[u8]) -> Result<Proof, ReadError>
    ensures found { IfOk result (λ p. ProofText p bytes.now) }
    ensures fault { IfErr result (FaultsAs bytes.now) }
{
    let mut draft = Draft::new(alloc);
    add_lines(alloc, bytes, &mut draft)?;
    Ok(draft.finish()?)
}
