//! Sealed triples by the node at one end, with rows in their place for the nodes that edits touch.

ghost use Rattle.std.specs.Prelude.{List, ◌≡◌, ◌∷◌, ◌<◌, IfNone, IfOk, IfSome, vec_capacity, vec_len};
ghost use Rattle.lists.specs.Sorting.{insert_by, sorted_by};
ghost use Rattle.rdf_terms.specs.declared.terms.Triple.{Triple as Row};
ghost use Rattle.graph_index.specs.Edits.{AreInTexts, AreInTextsOf, HasSameRows, IsGrouped, IsReady, PutsRows};
ghost use Rattle.graph_index.specs.Rows.{arcs_at, by_texts, node_at};

use crate::arcs::Arcs;
use crate::node_rows::{put_among, take_from};
use indexmap::IndexMap;
use rdf_terms::table::TermTable;
use rdf_terms::terms::{TermId, Triple};
use std::alloc::{AllocError, Global};
use std::marker::Model;

/// Triples by the nodes at one end. The rows of a node are those that were put for it, and otherwise the sealed ones.
#[derive(Drop)]
pub(crate) struct EditedArcs {
    sealed: Arcs,
    edited: IndexMap<TermId, Vec<Triple>>,
}

impl Model for EditedArcs {
    ghost use Rattle.indexmap.specs.IndexMap.{spare};
    ghost use Rattle.graph_index.specs.Edits.{AreEdits, Incidence, incidence_of};

    ghost Value = { Incidence };

    ghost view = { λ a. incidence_of a.sealed.end a.sealed.rows.items a.edited.entries (spare a.edited) };

    ghost invariant = { λ a. AreEdits a.sealed.end a.edited.entries };
}

impl EditedArcs {
    /// Sealed triples, of which no node was edited yet.
    pub(crate) fn over(alloc: Global, sealed: Arcs) -> EditedArcs
        ensures end { result.end ≡ sealed.end }
        ensures rows { result.rows ≡ sealed.rows.items }
        ensures sealed { result.sealed ≡ sealed.rows.items }
    {
        EditedArcs {
            sealed,
            edited: IndexMap::new(alloc),
        }
    }

    /// The triples of a node.
    pub(crate) fn of_node(&self, n: TermId) -> &[Triple]
        ensures { result.now ≡ arcs_at self.now.end self.now.rows n }
    {
        match self.edited_rows(n) {
            Some(rows) => rows,
            None => self.sealed_rows(n),
        }
    }

    /// The triples of a node for which rows were put.
    pub(crate) fn edited_rows(&self, n: TermId) -> Option<&[Triple]>
        ensures found { IfSome result (λ rows. rows.now ≡ arcs_at self.now.end self.now.rows n) }
        ensures grouped { IfSome result (λ rows. IsGrouped rows.now) }
        ensures absent { IfNone result (arcs_at self.now.end self.now.rows n ≡ arcs_at self.now.end self.now.sealed n) }
    {
        if self.edited.is_empty() {
            return None;
        }
        match self.edited.get(&n) {
            Some(rows) => Some(rows.as_slice()),
            None => None,
        }
    }

    /// The sealed triples of a node.
    pub(crate) fn sealed_rows(&self, n: TermId) -> &[Triple]
        ensures { result.now ≡ arcs_at self.now.end self.now.sealed n }
    {
        self.sealed.of_node(n)
    }

    /// Makes room for one row more of a node, in its own rows where it has them, and otherwise in a copy of the sealed ones,
    /// which is given. No rows change.
    pub(crate) fn readied(
        &mut self,
        alloc: Global,
        n: TermId,
    ) -> Result<Option<Vec<Triple>>, AllocError>
        ensures same { HasSameRows self.old self.new }
        ensures ready { IfOk result (λ fresh. IsReady n fresh self.new) }
    {
        match self.edited.get_mut(&n) {
            Some(rows) => {
                rows.reserve(1)?;
                Ok(None)
            }
            None => {
                self.edited.reserve(1)?;
                let rows = with_room(alloc, self.sealed.of_node(n))?;
                Ok(Some(rows))
            }
        }
    }

    /// Puts a triple among the rows of its node, which were made ready for it.
    pub(crate) fn insert(&mut self, terms: &TermTable, fresh: Option<Vec<Triple>>, t: Triple)
        requires ready { IsReady (node_at self.old.end t) fresh self.old }
        requires sorted { AreInTextsOf terms.now self.old.end (node_at self.old.end t) (arcs_at self.old.end self.old.rows (node_at self.old.end t)) }
        ensures { PutsRows (node_at self.old.end t) (insert_by (by_texts self.old.end terms.now) t (arcs_at self.old.end self.old.rows (node_at self.old.end t))) self.old self.new }
    {
        let end = self.sealed.end();
        let n = end.node_of(&t);
        if let Some(mut rows) = fresh {
            put_among(end, terms, &mut rows, t);
            self.put(n, rows);
            return;
        }
        match self.edited.get_mut(&n) {
            Some(rows) => put_among(end, terms, rows, t),
            None => unreachable!(),
        }
    }

    /// Takes a triple out of the rows of its node, which were made ready for it.
    pub(crate) fn remove(&mut self, terms: &TermTable, fresh: Option<Vec<Triple>>, t: Triple)
        requires ready { IsReady (node_at self.old.end t) fresh self.old }
        requires sorted { (ts : List Row) × (arcs_at self.old.end self.old.rows (node_at self.old.end t) ≡ sorted_by (by_texts self.old.end terms.now) (t ∷ arcs_at self.old.end ts (node_at self.old.end t))) }
        ensures { (ts : List Row) → arcs_at self.old.end self.old.rows (node_at self.old.end t) ≡ sorted_by (by_texts self.old.end terms.now) (t ∷ arcs_at self.old.end ts (node_at self.old.end t)) → PutsRows (node_at self.old.end t) (sorted_by (by_texts self.old.end terms.now) (arcs_at self.old.end ts (node_at self.old.end t))) self.old self.new }
    {
        let end = self.sealed.end();
        let n = end.node_of(&t);
        if let Some(mut rows) = fresh {
            take_from(end, terms, &mut rows, t);
            self.put(n, rows);
            return;
        }
        match self.edited.get_mut(&n) {
            Some(rows) => take_from(end, terms, rows, t),
            None => unreachable!(),
        }
    }

    /// Puts the rows of a node, for which there is room, in place of those that it has.
    fn put(&mut self, n: TermId, rows: Vec<Triple>)
        requires room { 0 < self.old.room }
        requires in_texts { AreInTexts self.old.end n rows.items }
        ensures { PutsRows n rows.items self.old self.new }
    {
        match self.edited.insert(n, rows) {
            Ok(_) => (),
            Err(_) => unreachable!(),
        }
    }
}

/// A copy of the rows with room for one more.
fn with_room(alloc: Global, rows: &[Triple]) -> Result<Vec<Triple>, AllocError>
    ensures rows { IfOk result (λ copy. copy.items ≡ rows.now) }
    ensures room { IfOk result (λ copy. vec_len copy < vec_capacity copy) }
{
    let mut copy = Vec::with_capacity(alloc, rows.len() + 1)?;
    copy.extend_from_slice(rows)?;
    Ok(copy)
}
