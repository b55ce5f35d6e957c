//! The blocks of an explanation, as values of JSON.

ghost use Rattle.std.specs.Prelude.{◌≡◌, ◌++◌, IfOk, OnOk, codes, map};
ghost use Rattle.std.specs.Option.{option_copied};
ghost use Rattle.schema_tree.specs.Entries.{entry, shape_at};
ghost use Rattle.serde_json.specs.Data.{no_members, object, put};
ghost use Rattle.serde_json.specs.View.{view};
ghost use Rattle.explanation_texts.specs.Data.{members_of};
ghost use Rattle.explanation_texts.specs.Folding.{shown_reasons};
ghost use Rattle.explanation_texts.specs.Names.{expr_name, shape_name};
ghost use Rattle.explanation_texts.specs.Reasons.{occs_of};
ghost use Rattle.explanation_texts.specs.Trees.{blocks_data, called, cause_data, expr_data, list_data, members_data, put_block, put_cause, put_kind, put_member, put_subject, reason_data, text_data, tree_data};

use crate::folding::shown_reasons;
use crate::object::Object;
use crate::setting::Setting;
use crate::words::raised;
use explanations::explanation::{Block, ToldCause, ToldReason, Why};
use nonconformance::cause::Cause;
use rdf_terms::terms::TermId;
use schema_tree::schema::{Expr, ExprId, ShapeId};
use serde_json::Value;
use std::alloc::AllocError;

impl Setting<'_> {
    /// Appends the name of a shape expression.
    fn push_called(&self, expr: ExprId, out: &mut Vec<u8>) -> Result<(), AllocError>
        ensures { OnOk result (out.new.items ≡ out.old.items ++ called self.now expr (entry self.now.schema.now expr)) }
    {
        match self.schema.exprs.as_slice().get(expr.0 as usize) {
            Some(Expr::Shape(shape)) => self.push_shape_name(*shape, out),
            _ => self.push_expr_name(expr, out),
        }
    }

    /// Puts the name of a shape expression.
    fn put_called(&self, expr: ExprId, members: &mut Object) -> Result<(), AllocError>
        ensures { OnOk result (members_of members.new ≡ put (codes "expression") (expr_data self.now expr) (members_of members.old)) }
    {
        let mut text = Vec::new(self.alloc);
        self.push_called(expr, &mut text)?;
        members.put_text("expression", text.as_slice())
    }

    /// Puts a member of a joined expression.
    fn put_member(
        &self,
        node: TermId,
        member: ExprId,
        why: Option<&Why>,
        members: &mut Object,
    ) -> Result<(), AllocError>
        ensures { OnOk result (members_of members.new ≡ put_member self.now node member (option_copied why.entry) (members_of members.old)) }
    {
        self.put_called(member, members)?;
        self.put_why_if(node, member, why, members)
    }

    /// A member of a joined expression.
    fn member_value(
        &self,
        node: TermId,
        member: ExprId,
        why: Option<&Why>,
    ) -> Result<Value, AllocError>
        ensures { IfOk result (λ v. view v ≡ object (put_member self.now node member (option_copied why.entry) no_members)) }
    {
        let mut members = Object::new(self.alloc);
        self.put_member(node, member, why, &mut members)?;
        Ok(members.into_value())
    }

    /// Members of a joined expression.
    fn member_values(
        &self,
        node: TermId,
        members: &[ExprId],
        whys: &[Why],
    ) -> Result<Vec<Value>, AllocError>
        ensures { IfOk result (λ v. map view v.items ≡ members_data self.now node whys.now 0 members.now) }
    {
        let mut values = Vec::new(self.alloc);
        for number in 0..members.len() {
            values.push(self.member_value(node, members[number], whys.get(number))?)?;
        }
        Ok(values)
    }

    /// Puts that a node does not satisfy a member of a ShapeAnd.
    fn put_and(
        &self,
        node: TermId,
        member: ExprId,
        why: Option<&Why>,
        members: &mut Object,
    ) -> Result<(), AllocError>
        ensures { OnOk result (members_of members.new ≡
            put_member self.now node member (option_copied why.entry) (put_kind (codes "and") (members_of members.old))) }
    {
        members.put_kind("and")?;
        self.put_member(node, member, why, members)
    }

    /// Puts that a node satisfies no member of a ShapeOr.
    fn put_or(
        &self,
        node: TermId,
        alternatives: &[ExprId],
        whys: &[Why],
        members: &mut Object,
    ) -> Result<(), AllocError>
        ensures { OnOk result (members_of members.new ≡
            put (codes "members") (list_data (members_data self.now node whys.now 0 alternatives.now)) (put_kind (codes "or") (members_of members.old))) }
    {
        members.put_kind("or")?;
        members.put_list("members", self.member_values(node, alternatives, whys)?)
    }

    /// Puts that a node satisfies the member of a ShapeNot.
    fn put_not(&self, member: ExprId, members: &mut Object) -> Result<(), AllocError>
        ensures { OnOk result (members_of members.new ≡
            put (codes "expression") (expr_data self.now member) (put_kind (codes "not") (members_of members.old))) }
    {
        members.put_kind("not")?;
        self.put_called(member, members)
    }

    /// Puts a cause why a node does not satisfy an expression.
    fn put_cause(
        &self,
        node: TermId,
        told: &ToldCause,
        members: &mut Object,
    ) -> Result<(), AllocError>
        ensures { OnOk result (members_of members.new ≡ put_cause self.now node told.now.members told.now.cause (members_of members.old)) }
    {
        match &told.cause {
            Cause::Member(member) => {
                self.put_and(node, *member, told.members.as_slice().first(), members)
            }
            Cause::NoMember(alternatives) => self.put_or(
                node,
                alternatives.as_slice(),
                told.members.as_slice(),
                members,
            ),
            Cause::Negated(member) => self.put_not(*member, members),
            Cause::FailedPart(_) | Cause::Lacks(_) => Ok(()),
        }
    }

    /// A cause why a node does not satisfy an expression.
    fn cause_value(&self, node: TermId, told: &ToldCause) -> Result<Value, AllocError>
        ensures { IfOk result (λ v. view v ≡ cause_data self.now node told.now) }
    {
        let mut members = Object::new(self.alloc);
        self.put_cause(node, told, &mut members)?;
        Ok(members.into_value())
    }

    /// Causes why a node does not satisfy an expression.
    fn cause_values(&self, node: TermId, told: &[ToldCause]) -> Result<Vec<Value>, AllocError>
        ensures { IfOk result (λ v. map view v.items ≡ map (cause_data self.now node) told.now) }
    {
        let mut values = Vec::new(self.alloc);
        for cause in told {
            values.push(self.cause_value(node, cause)?)?;
        }
        Ok(values)
    }

    /// Puts the number and the node of a block.
    fn put_subject(
        &self,
        number: usize,
        node: TermId,
        members: &mut Object,
    ) -> Result<(), AllocError>
        ensures { OnOk result (members_of members.new ≡ put_subject self.now number node (members_of members.old)) }
    {
        members.put_number("number", number as u64)?;
        self.put_term("node", node, members)
    }

    /// Puts the name of a Shape.
    fn put_shape(&self, shape: ShapeId, members: &mut Object) -> Result<(), AllocError>
        ensures { OnOk result (members_of members.new ≡ put (codes "shape") (text_data (shape_name self.now.names.now shape)) (members_of members.old)) }
    {
        let mut text = Vec::new(self.alloc);
        self.push_shape_name(shape, &mut text)?;
        members.put_text("shape", text.as_slice())
    }

    /// Puts the name of a joined expression.
    fn put_joined(&self, expr: ExprId, members: &mut Object) -> Result<(), AllocError>
        ensures { OnOk result (members_of members.new ≡ put (codes "expression") (text_data (expr_name self.now.names.now expr)) (members_of members.old)) }
    {
        let mut text = Vec::new(self.alloc);
        self.push_expr_name(expr, &mut text)?;
        members.put_text("expression", text.as_slice())
    }

    /// Puts the reasons of a node with a Shape.
    fn put_reasons(
        &self,
        shape: ShapeId,
        told: &[ToldReason],
        members: &mut Object,
    ) -> Result<(), AllocError>
        ensures { OnOk result (members_of members.new ≡
            put (codes "reasons") (list_data (map (reason_data self.now (occs_of (shape_at self.now.schema.now shape))) (shown_reasons told.now)))
            (put (codes "shape") (text_data (shape_name self.now.names.now shape)) (members_of members.old))) }
    {
        self.put_shape(shape, members)?;
        let shown = shown_reasons(self.alloc, told)?;
        let reasons = self.reason_values(self.occs(shape), shown.as_slice())?;
        members.put_list("reasons", reasons)
    }

    /// Puts the causes of a node with a joined expression.
    fn put_causes(
        &self,
        node: TermId,
        expr: ExprId,
        told: &[ToldCause],
        members: &mut Object,
    ) -> Result<(), AllocError>
        ensures { OnOk result (members_of members.new ≡
            put (codes "causes") (list_data (map (cause_data self.now node) told.now))
            (put (codes "expression") (text_data (expr_name self.now.names.now expr)) (members_of members.old))) }
    {
        self.put_joined(expr, members)?;
        members.put_list("causes", self.cause_values(node, told)?)
    }

    /// Puts a block.
    fn put_block(
        &self,
        number: usize,
        block: &Block,
        members: &mut Object,
    ) -> Result<(), AllocError>
        ensures { OnOk result (members_of members.new ≡ put_block self.now number block.now (members_of members.old)) }
    {
        match block {
            Block::Reasons(pair, told) => {
                self.put_subject(number, pair.node, members)?;
                self.put_reasons(pair.shape, told.as_slice(), members)
            }
            Block::Causes(node, expr, told) => {
                self.put_subject(number, *node, members)?;
                self.put_causes(*node, *expr, told.as_slice(), members)
            }
        }
    }

    /// A block.
    fn block_value(&self, number: usize, block: &Block) -> Result<Value, AllocError>
        ensures { IfOk result (λ v. view v ≡ object (put_block self.now number block.now no_members)) }
    {
        let mut members = Object::new(self.alloc);
        self.put_block(number, block, &mut members)?;
        Ok(members.into_value())
    }

    /// Blocks that are numbered from this number on.
    fn block_values(&self, number: usize, blocks: &[Block]) -> Result<Vec<Value>, AllocError>
        ensures { IfOk result (λ v. map view v.items ≡ blocks_data self.now number 0 blocks.now) }
    {
        let mut values = Vec::new(self.alloc);
        for place in 0..blocks.len() {
            values.push(self.block_value(raised(number, place)?, &blocks[place])?)?;
        }
        Ok(values)
    }

    /// Puts why a node does not satisfy an expression, and blocks that are numbered from this number on.
    fn put_tree_members(
        &self,
        number: usize,
        failing: (TermId, ExprId, Why),
        blocks: &[Block],
        members: &mut Object,
    ) -> Result<(), AllocError>
        requires { members_of members.old ≡ no_members }
        ensures { OnOk result (object (members_of members.new) ≡ tree_data self.now number failing.0 failing.1 failing.2 blocks.now) }
    {
        let (node, expr, why) = failing;
        self.put_why(node, expr, why, members)?;
        members.put_list("blocks", self.block_values(number, blocks)?)
    }

    /// Why a node does not satisfy an expression, and blocks that are numbered from this number on.
    pub(crate) fn tree_value(
        &self,
        number: usize,
        failing: (TermId, ExprId, Why),
        blocks: &[Block],
    ) -> Result<Value, AllocError>
        ensures { IfOk result (λ v. view v ≡ tree_data self.now number failing.0 failing.1 failing.2 blocks.now) }
    {
        let mut members = Object::new(self.alloc);
        self.put_tree_members(number, failing, blocks, &mut members)?;
        Ok(members.into_value())
    }
}
