//! Verdicts on small schemas.

ghost use Rattle.std.specs.Prelude.{[], ◌<◌, ◌≡◌, Contains, IsTrue, Some, None};
ghost use Rattle.schema_tree.specs.declared.schema.ExprId.{ExprId};
ghost use Rattle.schema_tree.specs.declared.schema.Expr.{Expr};
ghost use Rattle.schema_tree.specs.declared.schema.Shape.{Shape};
ghost use Rattle.schema_tree.specs.Entries.{entry};
ghost use Rattle.schema_tree.specs.Loaded.{IsLoaded, RefersBelow};

use crate::tables::put;
use node_constraint::{Kind4, NodeConstraint};
use rdf_terms::items::Items;
use rdf_terms::table::TermTable;
use rdf_terms::terms::TermId;
use schema_tree::labels::Labels;
use schema_tree::schema::{Expr, ExprId, Pair, Schema, Shape, ShapeId};
use schema_tree::sure::{View, may_fail, may_hold, sure};
use schema_tree::verdicts::{Lean, Verdict};
use std::alloc::{AllocError, Global};
use std::process::Abort;
use std::test::Fail;

/// Of two pairs it is told that one is satisfied and one is not.
#[derive(Drop)]
struct Told {
    yes: Pair,
    no: Pair,
}

impl View for Told {
    ghost use Rattle.std.specs.Prelude.{[], ◌∷◌};

    ghost known = { λ told. record { yes = told.yes ∷ []; no = told.no ∷ [] } };

    fn pair(&self, pair: Pair) -> Verdict {
        if pair == self.yes {
            Verdict::Yes
        } else if pair == self.no {
            Verdict::No
        } else {
            Verdict::Unknown
        }
    }
}

/// Whether each member has a smaller number.
fn are_below(members: &[ExprId], number: usize) -> bool
    ensures { IsTrue result → (e : ExprId) → Contains members.now e → e.0 < number }
{
    for member in members {
        if number <= member.0 as usize {
            return false;
        }
    }
    true
}

/// Whether the entry of this number refers to smaller entries and to Shapes that are there.
fn refers_below(schema: &Schema, number: usize, expr: &Expr) -> bool
    ensures { IsTrue result → RefersBelow schema.now number expr.now }
{
    match expr {
        Expr::And(members) => are_below(members.as_slice(), number),
        Expr::Or(members) => are_below(members.as_slice(), number),
        Expr::Not(member) => (member.0 as usize) < number,
        Expr::Node(_) => true,
        Expr::Shape(shape) => (shape.0 as usize) < schema.shapes.as_slice().len(),
    }
}

/// Whether each entry does so.
fn all_refer_below(schema: &Schema) -> bool
    ensures { IsTrue result → (e : ExprId) (x : Expr) → entry schema.now e ≡ Some x → RefersBelow schema.now e.0 x }
{
    let exprs = schema.exprs.as_slice();
    for number in 0..exprs.len() {
        if !refers_below(schema, number, &exprs[number]) {
            return false;
        }
    }
    true
}

/// Whether each Shape is without occurrences.
fn are_bare(shapes: &[Shape]) -> bool
    ensures { IsTrue result → (sh : Shape) → Contains shapes.now sh → (sh.occs ≡ []) × (sh.body ≡ None) }
{
    for shape in shapes {
        if shape.body.is_some() || !shape.occs.as_slice().is_empty() {
            return false;
        }
    }
    true
}

/// Whether a schema of bare Shapes keeps what a loaded one does.
fn is_loaded(schema: &Schema) -> bool
    ensures { IsTrue result → IsLoaded schema.now }
{
    if !schema.labels.is_empty() || schema.start.is_some() {
        return false;
    }
    if schema.shapes.as_slice().len() > 4096 || !are_bare(schema.shapes.as_slice()) {
        return false;
    }
    all_refer_below(schema)
}

/// A Shape that every node has.
fn bare(alloc: Global) -> Shape {
    Shape {
        closed: false,
        extra: Items::of(Vec::new(alloc)),
        body: None,
        occs: Items::of(Vec::new(alloc)),
    }
}

/// A schema of these expressions and three Shapes.
fn schema_of(alloc: Global, exprs: Vec<Expr>) -> Result<Schema, AllocError> {
    Ok(Schema {
        exprs: Items::of(exprs),
        shapes: Items::of(vec![in alloc; bare(alloc), bare(alloc), bare(alloc)]?),
        labels: Labels::new(alloc),
        start: None,
    })
}

/// Both of two expressions.
fn and(alloc: Global, one: u32, other: u32) -> Result<Expr, AllocError> {
    Ok(Expr::And(Items::of(vec![in alloc; ExprId(one), ExprId(other)]?)))
}

/// One of two expressions.
fn or(alloc: Global, one: u32, other: u32) -> Result<Expr, AllocError> {
    Ok(Expr::Or(Items::of(vec![in alloc; ExprId(one), ExprId(other)]?)))
}

/// Two constraints, of which the first holds for every term, and three Shapes.
fn leaves(alloc: Global) -> Result<Vec<Expr>, AllocError> {
    let exprs = vec![in alloc;
        Expr::Node(NodeConstraint::of_kind(alloc, None)),
        Expr::Node(NodeConstraint::of_kind(alloc, Some(Kind4::Literal))),
        Expr::Shape(ShapeId(0)),
        Expr::Shape(ShapeId(1)),
        Expr::Shape(ShapeId(2)),
    ]?;
    Ok(exprs)
}

/// Adds Ands of two of them.
fn add_ands(alloc: Global, exprs: &mut Vec<Expr>) -> Result<(), AllocError> {
    for (one, other) in [(2, 0), (2, 4), (4, 3)] {
        exprs.push(and(alloc, one, other)?)?;
    }
    Ok(())
}

/// Adds Ors of two of them.
fn add_ors(alloc: Global, exprs: &mut Vec<Expr>) -> Result<(), AllocError> {
    for (one, other) in [(3, 1), (3, 4), (4, 2)] {
        exprs.push(or(alloc, one, other)?)?;
    }
    Ok(())
}

/// Expressions of each kind over members with each verdict.
fn every_kind(alloc: Global) -> Result<Schema, AllocError> {
    let mut exprs = leaves(alloc)?;
    add_ands(alloc, &mut exprs)?;
    add_ors(alloc, &mut exprs)?;
    exprs.push(Expr::Not(ExprId(2)))?;
    exprs.push(Expr::Not(ExprId(3)))?;
    exprs.push(Expr::Not(ExprId(6)))?;
    exprs.push(Expr::And(Items::of(Vec::new(alloc))))?;
    exprs.push(Expr::Or(Items::of(Vec::new(alloc))))?;
    schema_of(alloc, exprs)
}

/// So many levels of And, each of which refers to the one below it twice.
fn diamonds(alloc: Global, levels: u32) -> Result<Schema, AllocError> {
    let mut exprs = vec![in alloc; Expr::Shape(ShapeId(2))]?;
    for below in 0..levels {
        exprs.push(and(alloc, below, below)?)?;
    }
    schema_of(alloc, exprs)
}

/// A node, and a view that is told of the first Shape that it is satisfied and of the second that it is not.
fn node_and_view(alloc: Global, terms: &mut TermTable) -> Result<(TermId, Told), Fail> {
    let node = put(alloc, terms, "<http://localhost/n>")?;
    let yes = Pair {
        node,
        shape: ShapeId(0),
    };
    let no = Pair {
        node,
        shape: ShapeId(1),
    };
    Ok((node, Told { yes, no }))
}

/// Aborts the test where one of the expressions has another verdict than is wanted.
fn have_verdicts(
    rt: &(impl Abort + AllocGlobal),
    schema: &Schema,
    verdicts: &[(u32, Verdict)],
) -> Result<(), Fail>
    requires { IsLoaded schema.now }
{
    let alloc = rt.alloc();
    let mut terms = TermTable::new(alloc);
    let (node, view) = node_and_view(alloc, &mut terms)?;
    for (expr, wanted) in verdicts {
        let verdict = sure(alloc, schema, &terms, node, ExprId(*expr), &view)?;
        assert_eq!(rt; verdict, *wanted, "expression {expr}");
    }
    Ok(())
}

/// Expressions of each kind, and one whose members are shared forty times over, which are asked once.
#[test]
fn each_kind_has_its_verdict(rt: HostRuntime) -> Result<(), Fail> {
    let schema = every_kind(rt.alloc())?;
    assert!(rt; is_loaded(&schema));
    let verdicts = [
        (0, Verdict::Yes),
        (1, Verdict::No),
        (2, Verdict::Yes),
        (3, Verdict::No),
        (4, Verdict::Unknown),
        (5, Verdict::Yes),
        (6, Verdict::Unknown),
        (7, Verdict::No),
        (8, Verdict::No),
        (9, Verdict::Unknown),
        (10, Verdict::Yes),
        (11, Verdict::No),
        (12, Verdict::Yes),
        (13, Verdict::Unknown),
        (14, Verdict::Yes),
        (15, Verdict::No),
        (16, Verdict::No),
    ];
    have_verdicts(&rt, &schema, &verdicts)?;
    let shared = diamonds(rt.alloc(), 40)?;
    assert!(rt; is_loaded(&shared));
    have_verdicts(&rt, &shared, &[(40, Verdict::Unknown)])
}

/// Whether the value may hold and whether it may fail, where what is unknown counts as `lean` says.
fn leant(
    alloc: Global,
    schema: &Schema,
    lean: Lean,
    value: Option<ExprId>,
) -> Result<(bool, bool), Fail>
    requires { IsLoaded schema.now }
{
    let mut terms = TermTable::new(alloc);
    let (node, view) = node_and_view(alloc, &mut terms)?;
    let holds = may_hold(alloc, schema, &terms, &view, lean, node, value)?;
    let fails = may_fail(alloc, schema, &terms, &view, lean, node, value)?;
    Ok((holds, fails))
}

#[test]
fn what_is_unknown_leans(rt: HostRuntime) -> Result<(), Fail> {
    let alloc = rt.alloc();
    let schema = every_kind(alloc)?;
    assert!(rt; is_loaded(&schema));
    for (value, lean, wanted) in [
        (None, Lean::Possible, (true, false)),
        (None, Lean::Impossible, (true, false)),
        (Some(ExprId(2)), Lean::Possible, (true, false)),
        (Some(ExprId(2)), Lean::Impossible, (true, false)),
        (Some(ExprId(3)), Lean::Possible, (false, true)),
        (Some(ExprId(3)), Lean::Impossible, (false, true)),
        (Some(ExprId(4)), Lean::Possible, (true, true)),
        (Some(ExprId(4)), Lean::Impossible, (false, false)),
    ] {
        let found = leant(alloc, &schema, lean, value)?;
        assert_eq!(rt; found, wanted, "{value:?}, {lean:?}");
    }
    Ok(())
}
