//! What the records of a proof say of a pair.

ghost use Rattle.std.specs.Prelude.{[], ◌∷◌, ◌≡◌, ◌++◌, List, IfOk, OnOk, ◌&&◌, ◌||◌, if◌then◌else◌, nat_eq, nat_lt};
ghost use Rattle.schema_tree.specs.declared.schema.Pair.{Pair};
ghost use Rattle.schema_tree.specs.Edges.{level};
ghost use Rattle.proof_file.specs.Views.{Refuted, no_pairs, yes_pairs};
ghost use Rattle.proof_checker.specs.Standings.{AreStandings, least_rank, records_in, said_by, sees_minus, sees_plus, sees_rank, standing_in};
ghost use Rattle.schema_tree.specs.Entries.{same_pair};

use proof_file::{Record, RecordKind, Section};
use rdf_terms::terms::TermId;
use schema_tree::schema::{Pair, ShapeId};
use schema_tree::sure::View;
use schema_tree::verdicts::Verdict;
use std::alloc::{AllocError, Global};
use std::collections::HashMap;
use std::marker::Model;

/// What the records of a proof say of a pair.
#[derive(Clone, Copy, Debug, PartialEq, Eq)]
pub struct Standing {
    /// Whether a record confirms it.
    pub confirmed: bool,
    /// The smallest rank of the records that refute it, if any does.
    pub rank: Option<u32>,
}

impl Standing {
    /// What is said of a pair that no record names.
    const UNSAID: Standing = Standing {
        confirmed: false,
        rank: None,
    };

    /// What is said with one more record of this kind.
    fn with(self, kind: &RecordKind) -> Standing
        ensures { result ≡ said_by kind.now self }
    {
        match kind {
            RecordKind::Plus(_) => Standing {
                confirmed: true,
                rank: self.rank,
            },
            RecordKind::Minus(rank, _) => Standing {
                confirmed: self.confirmed,
                rank: Some(smaller(*rank, self.rank)),
            },
        }
    }
}

/// The smaller of a rank and another, if there is one.
fn smaller(rank: u32, other: Option<u32>) -> u32
    ensures { result ≡ least_rank rank other }
{
    match other {
        Some(least) => least.min(rank),
        None => rank,
    }
}

/// What the records say, by their pairs.
#[derive(Drop)]
pub struct Standings {
    by_pair: HashMap<Pair, Standing>,
}

impl Model for Standings {
    ghost use Rattle.std.specs.Prelude.{List};
    ghost use Rattle.schema_tree.specs.declared.schema.Pair.{Pair};
    ghost use Rattle.proof_checker.specs.declared.standings.Standing.{Standing};

    ghost Value = { List (Pair × Standing) };

    ghost view = { λ s. s.by_pair.entries };
}

impl Standings {
    /// What no records say.
    fn new(alloc: Global) -> Standings
        ensures { result ≡ [] }
    {
        Standings {
            by_pair: HashMap::new(alloc),
        }
    }

    /// What is said of the pair.
    fn of(&self, pair: Pair) -> Standing
        ensures { result ≡ standing_in self.now pair }
    {
        match self.by_pair.get(&pair) {
            Some(standing) => *standing,
            None => Standing::UNSAID,
        }
    }

    /// Notes a record of this kind for the pair.
    fn note(&mut self, pair: Pair, kind: &RecordKind) -> Result<(), AllocError>
        ensures { OnOk result ((q : Pair) → standing_in self.new q ≡ (if same_pair pair q then said_by kind.now (standing_in self.old pair) else standing_in self.old q)) }
    {
        let standing = self.of(pair).with(kind);
        self.by_pair.insert(pair, standing)?;
        Ok(())
    }

    /// Notes a record, if its node has a line.
    fn note_record(&mut self, nodes: &[TermId], entry: &Record) -> Result<(), AllocError>
        ensures { OnOk result ((plus : List Pair) (minus : List Refuted) → AreStandings plus minus self.old →
            AreStandings (plus ++ yes_pairs nodes.now (entry.now ∷ [])) (minus ++ no_pairs nodes.now (entry.now ∷ [])) self.new) }
    {
        match nodes.get(entry.node as usize) {
            Some(node) => {
                let pair = Pair {
                    node: *node,
                    shape: ShapeId(entry.shape),
                };
                self.note(pair, &entry.kind)
            }
            None => Ok(()),
        }
    }

    /// Notes the records of a section.
    fn note_section(&mut self, nodes: &[TermId], records: &[Record]) -> Result<(), AllocError>
        ensures { OnOk result ((plus : List Pair) (minus : List Refuted) → AreStandings plus minus self.old →
            AreStandings (plus ++ yes_pairs nodes.now records.now) (minus ++ no_pairs nodes.now records.now) self.new) }
    {
        for entry in records {
            self.note_record(nodes, entry)?;
        }
        Ok(())
    }

    /// What the records of the sections say; `nodes` are the numbers of the node lines' terms.
    pub fn of_sections(
        alloc: Global,
        nodes: &[TermId],
        sections: &[Section],
    ) -> Result<Standings, AllocError>
        ensures { IfOk result (AreStandings (yes_pairs nodes.now (records_in sections.now)) (no_pairs nodes.now (records_in sections.now))) }
    {
        let mut standings = Standings::new(alloc);
        for section in sections {
            standings.note_section(nodes, section.records.as_slice())?;
        }
        Ok(standings)
    }
}

/// What uses the records: a record that confirms or one that refutes, or a claim.
#[derive(Clone, Copy, Debug, PartialEq, Eq)]
pub enum Reader {
    /// A record that confirms, on the stratum.
    Confirms(u32),
    /// A record that refutes, on the stratum and with the rank.
    Refutes(u32, u32),
    /// A claim.
    Claims,
}

impl Reader {
    /// Whether it may use a pair of the stratum that is confirmed.
    fn sees_plus(self, stratum: u32) -> bool
        ensures { result ≡ sees_plus self stratum }
    {
        match self {
            Reader::Confirms(own) => stratum <= own,
            Reader::Refutes(own, _) => stratum < own,
            Reader::Claims => true,
        }
    }

    /// Whether it may use a pair of the stratum that is refuted with the rank.
    fn sees_minus(self, stratum: u32, rank: u32) -> bool
        ensures { result ≡ sees_minus self stratum rank }
    {
        match self {
            Reader::Confirms(own) => stratum < own,
            Reader::Refutes(own, limit) => is_before(stratum, rank, own, limit),
            Reader::Claims => true,
        }
    }
}

impl Reader {
    /// Whether it may use a pair of the stratum as confirmed.
    fn takes_plus(self, stratum: u32, standing: Standing) -> bool
        ensures { result ≡ (standing.confirmed && sees_plus self stratum) }
    {
        standing.confirmed && self.sees_plus(stratum)
    }

    /// Whether it may use a pair of the stratum that is refuted with this least rank, if there is one.
    fn sees_rank(self, stratum: u32, rank: Option<u32>) -> bool
        ensures { result ≡ sees_rank self stratum rank }
    {
        match rank {
            Some(rank) => self.sees_minus(stratum, rank),
            None => false,
        }
    }
}

/// What a reader may use of the records, as verdicts on pairs.
#[derive(Clone, Copy)]
pub struct RecordView<'a> {
    /// What the records say.
    pub standings: &'a Standings,
    /// The stratum of each Shape.
    pub strata: &'a [u32],
    /// Who reads.
    pub reader: Reader,
}

/// The stratum of a Shape, 0 where the list has none.
pub(crate) fn stratum_of(strata: &[u32], shape: ShapeId) -> u32
    ensures { result ≡ level strata.now shape }
{
    match strata.get(shape.0 as usize) {
        Some(stratum) => *stratum,
        None => 0,
    }
}

impl View for RecordView<'_> {
    ghost use Rattle.proof_checker.specs.Standings.{known_from};

    ghost known = { λ v. known_from v.strata.now v.standings.now v.reader };

    fn pair(&self, pair: Pair) -> Verdict {
        let standing = self.standings.of(pair);
        let stratum = stratum_of(self.strata, pair.shape);
        if self.reader.takes_plus(stratum, standing) {
            Verdict::Yes
        } else if self.reader.sees_rank(stratum, standing.rank) {
            Verdict::No
        } else {
            Verdict::Unknown
        }
    }
}

/// Whether a stratum and a rank come before others.
fn is_before(stratum: u32, rank: u32, own: u32, limit: u32) -> bool
    ensures { result ≡ (nat_lt stratum own || (nat_eq stratum own && nat_lt rank limit)) }
{
    stratum < own || stratum == own && rank < limit
}
