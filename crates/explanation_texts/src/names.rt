//! Names of the shape expressions and Shapes of a schema.

ghost use Rattle.std.specs.Prelude.{◌≡◌, ◌<◌, ℕ, suc, Some, Contains, IfOk, OnOk, codes, length, slice_get};
ghost use Rattle.std.specs.Fmt.{decimal};
ghost use Rattle.std.specs.Option.{option_copied};
ghost use Rattle.schema_tree.specs.declared.schema.Expr.TheVariants as Exprs;
ghost use Rattle.schema_tree.specs.declared.schema.ExprId.{ExprId as ExprNumber};
ghost use Rattle.schema_tree.specs.Entries.{entry};
ghost use Rattle.explanation_texts.specs.Names.{name_text};
ghost use Rattle.explanation_texts.specs.Naming.{AreEmpty, AreNames, AreOccsOf, HaveNames, IsGiven, IsName, IsPartOf, part_name};
ghost use Rattle.explanation_texts.specs.Words.{constraint_text};

use crate::words::{push_constraint, push_number, raised};
use rdf_terms::items::Items;
use rdf_terms::table::TermTable;
use schema_tree::labels::Label;
use schema_tree::schema::{Expr, ExprId, Occurrence, Schema, ShapeId};
use std::alloc::{AllocError, Global};

/// What the shape expressions and the Shapes of a schema are called: each by its label, or by the way that leads to it from a labelled
/// one. Where there is none, the name is empty.
#[derive(Debug, Drop)]
pub struct Names {
    /// The names of the expressions, in their order.
    pub exprs: Items<Items<u8>>,
    /// The names of the Shapes, in their order.
    pub shapes: Items<Items<u8>>,
}

/// Names that are found one after the other, and the expressions that have one in the order in which they were named.
#[derive(Drop)]
pub(crate) struct Named {
    pub(crate) exprs: Vec<Items<u8>>,
    pub(crate) shapes: Vec<Items<u8>>,
    pub(crate) queue: Vec<ExprId>,
}

/// What names are found in.
#[derive(Clone, Copy)]
pub(crate) struct Source<'a> {
    alloc: Global,
    schema: &'a Schema,
    terms: &'a TermTable,
}

/// An expression with its name.
#[derive(Clone, Copy)]
struct Whole<'a> {
    expr: ExprId,
    name: &'a [u8],
}

/// So many empty names.
fn empty_names(alloc: Global, count: usize) -> Result<Vec<Items<u8>>, AllocError>
    ensures { IfOk result (λ v. AreEmpty v.items) }
{
    let mut names = Vec::new(alloc);
    for _place in 0..count {
        names.push(Items::of(Vec::new(alloc)))?;
    }
    Ok(names)
}

/// A copy of the name of a number.
fn copy_of(alloc: Global, names: &[Items<u8>], number: u32) -> Result<Vec<u8>, AllocError>
    ensures { IfOk result (λ v. v.items ≡ name_text (slice_get names.now number)) }
{
    let mut copy = Vec::new(alloc);
    if let Some(name) = names.get(number as usize) {
        copy.extend_from_slice(name.as_slice())?;
    }
    Ok(copy)
}

/// Gives a name to what has none, and says whether it was so.
fn give(names: &mut Vec<Items<u8>>, number: u32, name: Vec<u8>) -> bool
    ensures { IsGiven names.old.items number name.items names.new.items }
{
    let place = number as usize;
    if place < names.len() && names[place].as_slice().is_empty() {
        names[place] = Items::of(name);
        true
    } else {
        false
    }
}

impl Source<'_> {
    /// Gives a name to an expression that has none.
    fn name_expr(&self, expr: ExprId, name: Vec<u8>, named: &mut Named) -> Result<(), AllocError>
        requires have { HaveNames self.now.schema.now self.now.terms.now named.old }
        requires is { IsName self.now.schema.now self.now.terms.now expr name.items }
        ensures { OnOk result (HaveNames self.now.schema.now self.now.terms.now named.new) }
    {
        if !give(&mut named.exprs, expr.0, name) {
            return Ok(());
        }
        named.queue.push(expr)?;
        Ok(())
    }

    /// Names an expression by its label.
    fn name_by_label(
        &self,
        label: &Label,
        expr: ExprId,
        named: &mut Named,
    ) -> Result<(), AllocError>
        requires have { HaveNames self.now.schema.now self.now.terms.now named.old }
        requires label { Contains self.now.schema.now.labels (label.now, expr) }
        ensures { OnOk result (HaveNames self.now.schema.now self.now.terms.now named.new) }
    {
        let text = label.text(self.alloc)?;
        self.name_expr(expr, text.into_bytes(), named)
    }

    /// Names the expressions that have labels.
    fn name_labelled(&self, named: &mut Named) -> Result<(), AllocError>
        requires have { HaveNames self.now.schema.now self.now.terms.now named.old }
        ensures { OnOk result (HaveNames self.now.schema.now self.now.terms.now named.new) }
    {
        for place in 0..self.schema.labels.len() {
            if let Some((label, expr)) = self.schema.labels.at(place) {
                self.name_by_label(label, expr, named)?;
            }
        }
        Ok(())
    }

    /// Names the start expression.
    fn name_start(&self, named: &mut Named) -> Result<(), AllocError>
        requires have { HaveNames self.now.schema.now self.now.terms.now named.old }
        ensures { OnOk result (HaveNames self.now.schema.now self.now.terms.now named.new) }
    {
        let Some(start) = self.schema.start else {
            return Ok(());
        };
        let mut name = Vec::new(self.alloc);
        name.extend_from_slice(b"START")?;
        self.name_expr(start, name, named)
    }

    /// The name of the part of this number of what has this name.
    fn part_name(&self, whole: &[u8], number: usize) -> Result<Vec<u8>, AllocError>
        ensures { IfOk result (λ v. v.items ≡ part_name whole.now (decimal (suc number))) }
    {
        let mut name = Vec::new(self.alloc);
        name.extend_from_slice(whole)?;
        name.extend_from_slice(b"/")?;
        push_number(self.alloc, raised(number, 1)? as u64, &mut name)?;
        Ok(name)
    }

    /// The name of the value of the triple constraint of this number, in a Shape that has this name.
    fn value_name(
        &self,
        whole: &[u8],
        occs: &[Occurrence],
        number: usize,
    ) -> Result<Vec<u8>, AllocError>
        ensures { IfOk result (λ v. v.items ≡ part_name whole.now (constraint_text self.now.terms.now occs.now number)) }
    {
        let mut name = Vec::new(self.alloc);
        name.extend_from_slice(whole)?;
        name.extend_from_slice(b"/")?;
        push_constraint(self.alloc, self.terms, occs, number, &mut name)?;
        Ok(name)
    }

    /// Names the part of this number of a named expression.
    fn name_part(
        &self,
        whole: Whole,
        number: usize,
        part: ExprId,
        named: &mut Named,
    ) -> Result<(), AllocError>
        requires have { HaveNames self.now.schema.now self.now.terms.now named.old }
        requires whole { IsName self.now.schema.now self.now.terms.now whole.expr whole.name.now }
        requires part { IsPartOf (entry self.now.schema.now whole.expr) number part }
        ensures { OnOk result (HaveNames self.now.schema.now self.now.terms.now named.new) }
    {
        let name = self.part_name(whole.name, number)?;
        self.name_expr(part, name, named)
    }

    /// Names the parts of a named expression, which is a ShapeAnd or a ShapeOr of these members.
    fn name_parts(
        &self,
        whole: Whole,
        members: &[ExprId],
        named: &mut Named,
    ) -> Result<(), AllocError>
        requires have { HaveNames self.now.schema.now self.now.terms.now named.old }
        requires whole { IsName self.now.schema.now self.now.terms.now whole.expr whole.name.now }
        requires parts { (k : ℕ) (e : ExprNumber) → slice_get members.now k ≡ Some e → IsPartOf (entry self.now.schema.now whole.expr) k e }
        ensures { OnOk result (HaveNames self.now.schema.now self.now.terms.now named.new) }
    {
        for number in 0..members.len() {
            self.name_part(whole, number, members[number], named)?;
        }
        Ok(())
    }

    /// Names the value of the triple constraint of this number of a named expression, which is the Shape of these constraints.
    fn name_value(
        &self,
        whole: Whole,
        occs: &[Occurrence],
        number: usize,
        named: &mut Named,
    ) -> Result<(), AllocError>
        requires have { HaveNames self.now.schema.now self.now.terms.now named.old }
        requires whole { IsName self.now.schema.now self.now.terms.now whole.expr whole.name.now }
        requires occs { AreOccsOf self.now.schema.now whole.expr occs.now }
        ensures { OnOk result (HaveNames self.now.schema.now self.now.terms.now named.new) }
    {
        let Some(occurrence) = occs.get(number) else {
            return Ok(());
        };
        let Some(value) = occurrence.value else {
            return Ok(());
        };
        let name = self.value_name(whole.name, occs, number)?;
        self.name_expr(value, name, named)
    }

    /// Names the values of the triple constraints of a named expression, which is the Shape of these constraints.
    fn name_values(
        &self,
        whole: Whole,
        occs: &[Occurrence],
        named: &mut Named,
    ) -> Result<(), AllocError>
        requires have { HaveNames self.now.schema.now self.now.terms.now named.old }
        requires whole { IsName self.now.schema.now self.now.terms.now whole.expr whole.name.now }
        requires occs { AreOccsOf self.now.schema.now whole.expr occs.now }
        ensures { OnOk result (HaveNames self.now.schema.now self.now.terms.now named.new) }
    {
        for number in 0..occs.len() {
            self.name_value(whole, occs, number, named)?;
        }
        Ok(())
    }

    /// Gives a name to a Shape that has none, and says whether it was so.
    fn give_shape(
        &self,
        whole: Whole,
        shape: ShapeId,
        named: &mut Named,
    ) -> Result<bool, AllocError>
        requires have { HaveNames self.now.schema.now self.now.terms.now named.old }
        requires whole { IsName self.now.schema.now self.now.terms.now whole.expr whole.name.now }
        requires shape { entry self.now.schema.now whole.expr ≡ Some (Exprs.Shape shape) }
        ensures { OnOk result (HaveNames self.now.schema.now self.now.terms.now named.new) }
    {
        let mut name = Vec::new(self.alloc);
        name.extend_from_slice(whole.name)?;
        Ok(give(&mut named.shapes, shape.0, name))
    }

    /// Names the Shape that a named expression is, and the values of its constraints.
    fn name_shape(&self, whole: Whole, shape: ShapeId, named: &mut Named) -> Result<(), AllocError>
        requires have { HaveNames self.now.schema.now self.now.terms.now named.old }
        requires whole { IsName self.now.schema.now self.now.terms.now whole.expr whole.name.now }
        requires shape { entry self.now.schema.now whole.expr ≡ Some (Exprs.Shape shape) }
        ensures { OnOk result (HaveNames self.now.schema.now self.now.terms.now named.new) }
    {
        let Some(found) = self.schema.shapes.as_slice().get(shape.0 as usize) else {
            return Ok(());
        };
        if !self.give_shape(whole, shape, named)? {
            return Ok(());
        }
        self.name_values(whole, found.occs.as_slice(), named)
    }

    /// Names what stands in a named expression.
    fn name_inside(&self, whole: Whole, named: &mut Named) -> Result<(), AllocError>
        requires have { HaveNames self.now.schema.now self.now.terms.now named.old }
        requires whole { IsName self.now.schema.now self.now.terms.now whole.expr whole.name.now }
        ensures { OnOk result (HaveNames self.now.schema.now self.now.terms.now named.new) }
    {
        match self.schema.exprs.as_slice().get(whole.expr.0 as usize) {
            Some(Expr::And(members)) => self.name_parts(whole, members.as_slice(), named),
            Some(Expr::Or(members)) => self.name_parts(whole, members.as_slice(), named),
            Some(Expr::Not(member)) => self.name_part(whole, 0, *member, named),
            Some(Expr::Shape(shape)) => self.name_shape(whole, *shape, named),
            _ => Ok(()),
        }
    }

    /// Names what stands in an expression, if it is named.
    fn name_next(&self, expr: ExprId, named: &mut Named) -> Result<(), AllocError>
        requires have { HaveNames self.now.schema.now self.now.terms.now named.old }
        ensures { OnOk result (HaveNames self.now.schema.now self.now.terms.now named.new) }
    {
        let name = copy_of(self.alloc, named.exprs.as_slice(), expr.0)?;
        if name.is_empty() {
            Ok(())
        } else {
            self.name_inside(
                Whole {
                    expr,
                    name: name.as_slice(),
                },
                named,
            )
        }
    }

    /// Names what has a label, the start expression, and what stands in these.
    fn name_all(&self, named: &mut Named) -> Result<(), AllocError>
        requires have { HaveNames self.now.schema.now self.now.terms.now named.old }
        ensures { OnOk result (HaveNames self.now.schema.now self.now.terms.now named.new) }
    {
        self.name_labelled(named)?;
        self.name_start(named)?;
        let mut at = 0;
        while at < named.queue.len() {
            self.name_next(named.queue[at], named)?;
            at += 1;
        }
        Ok(())
    }
}

/// The names of the expressions and Shapes of a schema.
pub fn names_of(alloc: Global, schema: &Schema, terms: &TermTable) -> Result<Names, AllocError>
    ensures { IfOk result (AreNames schema.now terms.now) }
{
    let source = Source {
        alloc,
        schema,
        terms,
    };
    let mut named = Named {
        exprs: empty_names(alloc, schema.exprs.as_slice().len())?,
        shapes: empty_names(alloc, schema.shapes.as_slice().len())?,
        queue: Vec::new(alloc),
    };
    source.name_all(&mut named)?;
    Ok(Names {
        exprs: Items::of(named.exprs),
        shapes: Items::of(named.shapes),
    })
}
