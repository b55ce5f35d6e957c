//! Labels of shape expressions, and the list of those that a schema declares.

ghost use Rattle.std.specs.Prelude.{[], ◌≡◌, ◌==◌, length, slice_get, IfOk, OnErr, IfSome, IsNone, option_map, Contains, ◌↔◌};
ghost use Rattle.lists.specs.Distinct.{AreDistinct};
ghost use Rattle.schema_tree.specs.Labels.{labels_of, DeclaresNext, IsDeclared};

use crate::schema::ExprId;
use indexmap::IndexMap;
pub use schema_documents::Label;
use std::alloc::{AllocError, Global};
use std::marker::Model;

/// The declared labels, each once and with its expression, in reading order.
#[derive(Drop)]
pub struct Labels {
    entries: IndexMap<Label, ExprId>,
}

impl Model for Labels {
    ghost use Rattle.std.specs.Prelude.{List};
    ghost use Rattle.schema_documents.specs.declared.label.Label.{Label};
    ghost use Rattle.schema_tree.specs.declared.schema.ExprId.{ExprId};

    ghost Value = { List (Label × ExprId) };

    ghost view = { λ l. l.entries.entries };
}

impl Labels {
    /// No labels.
    pub fn new(alloc: Global) -> Labels
        ensures { result ≡ [] }
    {
        Labels {
            entries: IndexMap::new(alloc),
        }
    }

    /// How many labels are declared.
    pub fn len(&self) -> usize
        ensures count { result ≡ length self.now }
        ensures once { AreDistinct (labels_of self.now) }
    {
        self.entries.len()
    }

    /// Whether no label is declared.
    pub fn is_empty(&self) -> bool
        ensures { result ≡ (length self.now == 0) }
    {
        self.entries.is_empty()
    }

    /// Declares a label with its expression, and says whether it is new. A label that is there keeps its expression,
    /// and a refusal changes nothing.
    pub fn declare(&mut self, label: Label, expr: ExprId) -> Result<bool, AllocError>
        ensures declared { IfOk result (λ new. DeclaresNext self.old label expr new self.new) }
        ensures err { OnErr result (self.new ≡ self.old) }
    {
        if self.entries.contains_key(&label) {
            return Ok(false);
        }
        self.entries.insert(label, expr)?;
        Ok(true)
    }

    /// Entry i in reading order, and `None` exactly past the last.
    pub fn at(&self, i: usize) -> Option<(&Label, ExprId)>
        ensures entry { option_map (λ p. (p.0.now, p.1)) result ≡ slice_get self.now i }
    {
        let (label, expr) = self.entries.get_index(i)?;
        Some((label, *expr))
    }

    /// The expression of a label, and `None` exactly where it is not declared.
    pub fn find(&self, label: &Label) -> Option<ExprId>
        ensures found { IfSome result (λ e. Contains self.now (label.now, e)) }
        ensures absent { IsNone result ↔ (¬ IsDeclared self.now label.now) }
    {
        match self.entries.get(label) {
            Some(expr) => Some(*expr),
            None => None,
        }
    }
}
