//! Terms, triples, triple constraints and what is told of a node constraint, as values of JSON.

ghost use Rattle.std.specs.Prelude.{◌≡◌, IfOk, OnOk, codes, map};
ghost use Rattle.std.specs.Option.{option_copied};
ghost use Rattle.rdf_terms.specs.Order.{text_at};
ghost use Rattle.serde_json.specs.Data.{put};
ghost use Rattle.serde_json.specs.View.{view};
ghost use Rattle.explanations.specs.declared.explanation.Why.TheVariants.{Part};
ghost use Rattle.explanation_texts.specs.Data.{members_of};
ghost use Rattle.explanation_texts.specs.Trees.{constraint_data, part_word, put_why, put_why_if, text_data, triple_data};

use crate::object::{Object, text_value};
use crate::setting::Setting;
use crate::words::{push_constraint, push_term, push_triple};
use explanations::explanation::Why;
use node_constraint::ConstraintPart;
use rdf_terms::terms::{TermId, Triple};
use schema_tree::schema::{ExprId, Occurrence};
use serde_json::Value;
use std::alloc::AllocError;

/// The word of a part of a node constraint.
fn part_word(part: ConstraintPart) -> &'static str
    ensures { result.now ≡ part_word part }
{
    match part {
        ConstraintPart::Kind => "nodeKind",
        ConstraintPart::Datatype => "datatype",
        ConstraintPart::Facet(_) => "facet",
        ConstraintPart::Values => "values",
    }
}

impl Setting<'_> {
    /// Puts a term at a key.
    pub(crate) fn put_term(
        &self,
        key: &str,
        term: TermId,
        members: &mut Object,
    ) -> Result<(), AllocError>
        ensures { OnOk result (members_of members.new ≡ put key.now (text_data (text_at self.now.terms.now term)) (members_of members.old)) }
    {
        let mut text = Vec::new(self.alloc);
        push_term(self.alloc, self.terms, term, &mut text)?;
        members.put_text(key, text.as_slice())
    }

    /// A triple as a string.
    fn triple_value(&self, triple: Triple) -> Result<Value, AllocError>
        ensures { IfOk result (λ v. view v ≡ triple_data self.now.terms.now triple) }
    {
        let mut text = Vec::new(self.alloc);
        push_triple(self.alloc, self.terms, triple, &mut text)?;
        text_value(self.alloc, text.as_slice())
    }

    /// Triples as strings.
    pub(crate) fn triple_values(&self, triples: &[Triple]) -> Result<Vec<Value>, AllocError>
        ensures { IfOk result (λ v. map view v.items ≡ map (triple_data self.now.terms.now) triples.now) }
    {
        let mut values = Vec::new(self.alloc);
        for triple in triples {
            values.push(self.triple_value(*triple)?)?;
        }
        Ok(values)
    }

    /// Puts a triple at a key.
    pub(crate) fn put_triple(
        &self,
        key: &str,
        triple: Triple,
        members: &mut Object,
    ) -> Result<(), AllocError>
        ensures { OnOk result (members_of members.new ≡ put key.now (triple_data self.now.terms.now triple) (members_of members.old)) }
    {
        let value = self.triple_value(triple)?;
        members.put(key, value)
    }

    /// The triple constraint of a number as a string.
    fn constraint_value(&self, occs: &[Occurrence], number: usize) -> Result<Value, AllocError>
        ensures { IfOk result (λ v. view v ≡ constraint_data self.now.terms.now occs.now number) }
    {
        let mut text = Vec::new(self.alloc);
        push_constraint(self.alloc, self.terms, occs, number, &mut text)?;
        text_value(self.alloc, text.as_slice())
    }

    /// Triple constraints as strings.
    pub(crate) fn constraint_values(
        &self,
        occs: &[Occurrence],
        numbers: &[u16],
    ) -> Result<Vec<Value>, AllocError>
        ensures { IfOk result (λ v. map view v.items ≡ map (constraint_data self.now.terms.now occs.now) numbers.now) }
    {
        let mut values = Vec::new(self.alloc);
        for number in numbers {
            values.push(self.constraint_value(occs, *number as usize)?)?;
        }
        Ok(values)
    }

    /// Puts the triple constraint of a number.
    pub(crate) fn put_constraint(
        &self,
        occs: &[Occurrence],
        number: usize,
        members: &mut Object,
    ) -> Result<(), AllocError>
        ensures { OnOk result (members_of members.new ≡
            put (codes "constraint") (constraint_data self.now.terms.now occs.now number) (members_of members.old)) }
    {
        let value = self.constraint_value(occs, number)?;
        members.put("constraint", value)
    }

    /// Puts the part of a node constraint that does not hold.
    fn put_part(
        &self,
        node: TermId,
        expr: ExprId,
        part: ConstraintPart,
        members: &mut Object,
    ) -> Result<(), AllocError>
        ensures { OnOk result (members_of members.new ≡ put_why self.now node expr (Part part) (members_of members.old)) }
    {
        members.put_word("part", part_word(part))?;
        let mut text = Vec::new(self.alloc);
        self.push_why(node, expr, Why::Part(part), &mut text)?;
        members.put_text("text", text.as_slice())
    }

    /// Puts why a node does not satisfy an expression.
    pub(crate) fn put_why(
        &self,
        node: TermId,
        expr: ExprId,
        why: Why,
        members: &mut Object,
    ) -> Result<(), AllocError>
        ensures { OnOk result (members_of members.new ≡ put_why self.now node expr why (members_of members.old)) }
    {
        match why {
            Why::Part(part) => self.put_part(node, expr, part, members),
            Why::See(number) => members.put_number("see", number as u64),
        }
    }

    /// Puts why a node does not satisfy an expression, if that is told.
    pub(crate) fn put_why_if(
        &self,
        node: TermId,
        expr: ExprId,
        why: Option<&Why>,
        members: &mut Object,
    ) -> Result<(), AllocError>
        ensures { OnOk result (members_of members.new ≡ put_why_if self.now node expr (option_copied why.entry) (members_of members.old)) }
    {
        match why {
            Some(why) => self.put_why(node, expr, *why, members),
            None => Ok(()),
        }
    }
}
