//! A loaded schema: its expressions and its Shapes, each with a number.

ghost use Rattle.std.specs.Prelude.{◌≡◌, ◌↔◌, IfSome, IsNone};

use crate::body::Body;
use crate::labels::{Label, Labels};
use node_constraint::NodeConstraint;
use rdf_terms::items::Items;
use rdf_terms::terms::{TermId, Triple};
use std::alloc::{AllocError, Global};
use std::fmt;

/// The number of a shape expression: its place among the schema's expressions.
#[derive(Clone, Copy, Debug, PartialEq, Eq, Hash)]
pub struct ExprId(pub u32);

/// The number of a Shape: its place among the schema's Shapes.
#[derive(Clone, Copy, Debug, PartialEq, Eq, Hash)]
pub struct ShapeId(pub u32);

/// A shape expression (ShEx 2.1, section 5.3) whose parts are numbers of expressions and Shapes. A reference is the
/// number of its target.
#[derive(Debug, Drop)]
pub enum Expr {
    /// ShapeAnd: each member is satisfied.
    And(Items<ExprId>),
    /// ShapeOr: some member is satisfied.
    Or(Items<ExprId>),
    /// ShapeNot: the member is not satisfied.
    Not(ExprId),
    /// A node constraint.
    Node(NodeConstraint),
    /// A Shape.
    Shape(ShapeId),
}

/// An occurrence of a TripleConstraint in a Shape (ShEx 2.1, section 5.5), after inclusions are unfolded.
#[derive(Clone, Copy, Debug, PartialEq, Eq)]
pub struct Occurrence {
    /// Whether it takes arcs in rather than arcs out.
    pub inverse: bool,
    /// The predicate of the arcs that it takes.
    pub predicate: TermId,
    /// What the other end has to satisfy, if anything.
    pub value: Option<ExprId>,
}

impl Occurrence {
    ghost use Rattle.std.specs.Prelude.{◌&&◌, not};
    ghost use Rattle.schema_tree.specs.Matches.{fits, other_end};
    ghost use Rattle.schema_tree.specs.Relevant.{is_forward};

    /// Whether its predicate and direction agree with the triple at the node (ShEx 2.1, section 5.5.2).
    pub fn fits(self, node: TermId, triple: Triple) -> bool
        ensures { result ≡ fits self node triple }
    {
        let near = if self.inverse { triple.o } else { triple.s };
        self.predicate == triple.p && near == node
    }

    /// Whether it takes arcs out and fits the triple at the node.
    pub fn fits_forward(self, node: TermId, triple: Triple) -> bool
        ensures { result ≡ is_forward node triple self }
    {
        !self.inverse && self.fits(node, triple)
    }

    /// The end of a triple that has to satisfy its value: the object, or the subject of an arc in.
    pub fn other_end(self, triple: Triple) -> TermId
        ensures { result ≡ other_end self.inverse triple }
    {
        if self.inverse { triple.s } else { triple.o }
    }
}

/// A Shape (ShEx 2.1, section 5.5).
#[derive(Drop)]
pub struct Shape {
    /// Whether other arcs out are refused.
    pub closed: bool,
    /// The predicates of which arcs may be left over.
    pub extra: Items<TermId>,
    /// The triple expression over the numbers of the occurrences, if there is one.
    pub body: Option<Body>,
    /// The occurrences, numbered from 0 in reading order.
    pub occs: Items<Occurrence>,
}

/// A schema as it is loaded (ShEx 2.1, section 5.1).
#[derive(Drop)]
pub struct Schema {
    /// The shape expressions; each refers to smaller numbers only.
    pub exprs: Items<Expr>,
    /// The Shapes.
    pub shapes: Items<Shape>,
    /// The declared labels.
    pub labels: Labels,
    /// The start expression, if there is one.
    pub start: Option<ExprId>,
}

/// What a node is asked to satisfy: the start expression or that of a label.
#[derive(Debug, Drop, PartialEq, Eq)]
pub enum Target {
    /// The start expression.
    Start,
    /// The expression of a label.
    Label(Label),
}

impl fmt::Display for Target {
    ghost use Rattle.std.specs.Prelude.{Some};
    ghost use Rattle.schema_tree.specs.Targets.{target_text};

    ghost output = { λ t. Some (target_text t) };

    /// The text of its label, or `START` (ShapeMap Structure and Language, section 4).
    fn fmt<W: fmt::Write>(&self, f: &mut fmt::Formatter<W>) -> fmt::Result {
        match self {
            Target::Start => f.write_str("START"),
            Target::Label(label) => write!(f, "{label}"),
        }
    }
}

impl Target {
    ghost use Rattle.std.specs.Prelude.{IfOk, string_bytes};
    ghost use Rattle.schema_tree.specs.Targets.{IsTextTarget, target_text};

    /// A copy of the target.
    pub fn try_clone(&self, alloc: Global) -> Result<Target, AllocError>
        ensures { IfOk result (λ t. t ≡ self.now) }
    {
        match self {
            Target::Start => Ok(Target::Start),
            Target::Label(label) => Ok(Target::Label(label.try_clone(alloc)?)),
        }
    }

    /// Its text: that of its label, or `START` (ShapeMap Structure and Language, section 4).
    pub fn text(&self, alloc: Global) -> Result<String, AllocError>
        ensures written { IfOk result (λ s. string_bytes s ≡ target_text self.now) }
        ensures scalars { IsTextTarget self.now }
    {
        match self {
            Target::Start => String::from_str(alloc, "START"),
            Target::Label(label) => label.text(alloc),
        }
    }
}

impl Schema {
    ghost use Rattle.schema_tree.specs.Loaded.{IsTarget, HasTarget};

    /// The expression of a target, and `None` exactly where the label is not declared or there is no start.
    pub fn target(&self, target: &Target) -> Option<ExprId>
        ensures found { IfSome result (IsTarget self.now target.now) }
        ensures absent { IsNone result ↔ (¬ HasTarget self.now target.now) }
    {
        match target {
            Target::Start => self.start,
            Target::Label(label) => self.labels.find(label),
        }
    }
}

/// A node with a Shape.
#[derive(Clone, Copy, Debug, PartialEq, Eq, Hash)]
pub struct Pair {
    /// The node.
    pub node: TermId,
    /// The Shape.
    pub shape: ShapeId,
}

/// Whether a node satisfies the expression of a target.
#[derive(Debug, Drop, PartialEq, Eq)]
pub struct Answer {
    /// The node.
    pub node: TermId,
    /// What was asked.
    pub target: Target,
    /// Whether the node satisfies it.
    pub holds: bool,
}
