//! What a refinement finds.

ghost use Rattle.std.specs.Prelude.{◌≡◌};
ghost use Rattle.schema_tree.specs.Sure.{PairIs};
ghost use Rattle.typing_refiner.specs.Refinement.{known_by_it};

use crate::building::WidePair;
use crate::records::Records;
use demand::table::PairTable;
use proof_file::Section;
use rdf_terms::terms::TermId;
use schema_tree::schema::Pair;
use schema_tree::sure::View;
use schema_tree::verdicts::Verdict;
use std::marker::Model;

/// A view that knows nothing.
#[derive(Clone, Copy, Debug)]
pub struct Nothing;

impl View for Nothing {
    ghost use Rattle.std.specs.Prelude.{[]};

    ghost known = { λ v. record { yes = []; no = [] } };

    fn pair(&self, _pair: Pair) -> Verdict {
        Verdict::Unknown
    }
}

/// The verdicts of refinement on pairs, and what shows them.
#[derive(Drop)]
pub struct Refined {
    pub(crate) table: PairTable,
    pub(crate) marks: Vec<Verdict>,
    pub(crate) wide: Vec<WidePair>,
    pub(crate) records: Records,
}

impl Model for Refined {
    ghost use Rattle.typing_refiner.specs.Refinement.{Refinement};

    ghost Value = { Refinement };

    ghost view = { λ r. record { pairs = r.table; marks = r.marks.items; wide = r.wide.items; nodes = r.records.nodes.items; sections = r.records.sections.items } };
}

impl View for Refined {
    ghost use Rattle.typing_refiner.specs.Refinement.{known_by_it};

    ghost known = { λ r. known_by_it r };

    fn pair(&self, pair: Pair) -> Verdict {
        let _count = self.table.len();
        match self.table.find(pair) {
            Some(place) => match self.marks.get(place as usize) {
                Some(mark) => *mark,
                None => Verdict::Unknown,
            },
            None => Verdict::Unknown,
        }
    }
}

impl Refined {
    /// The verdict on a pair, without taking memory.
    pub fn verdict(&self, pair: Pair) -> Verdict
        ensures { PairIs (known_by_it self.now) pair result }
    {
        self.pair(pair)
    }

    /// The pairs whose Width is above the budget, in order, without taking memory.
    pub fn wide(&self) -> &[WidePair]
        ensures { result.now ≡ self.now.wide }
    {
        self.wide.as_slice()
    }

    /// The records of each stratum that has some, whose nodes are counted by `nodes`, without taking memory.
    pub fn sections(&self) -> &[Section]
        ensures { result.now ≡ self.now.sections }
    {
        self.records.sections.as_slice()
    }

    /// The nodes of the records in the order of their texts, without taking memory.
    pub fn nodes(&self) -> &[TermId]
        ensures { result.now ≡ self.now.nodes }
    {
        self.records.nodes.as_slice()
    }

    /// The records and their nodes, without taking memory.
    pub fn into_records(self) -> Records
        ensures nodes { result.nodes.items ≡ self.nodes }
        ensures sections { result.sections.items ≡ self.sections }
    {
        self.records
    }
}
