//! What verdicts on some pairs make sure of a node with an expression.

ghost use Rattle.std.specs.Prelude.{◌≡◌, ◌↔◌, IfOk, IsTrue, slice_get};
ghost use Rattle.std.specs.HashMap.{get};
ghost use Rattle.schema_tree.specs.Entries.{entry, SatNodeAt};
ghost use Rattle.schema_tree.specs.Joined.{AreKept, IsDecidedBy, opposite, same_expr};
ghost use Rattle.schema_tree.specs.Loaded.{IsLoaded};
ghost use Rattle.schema_tree.specs.Places.{MayFail, MayHold};
ghost use Rattle.schema_tree.specs.Sure.{IsSure};
ghost use Rattle.schema_tree.specs.declared.verdicts.Verdict.{Verdict};

use crate::schema::{Expr, ExprId, Pair, Schema};
use crate::verdicts::{Lean, Verdict};
use node_constraint::NodeConstraint;
use rdf_terms::table::TermTable;
use rdf_terms::terms::TermId;
use std::alloc::{AllocError, Global};
use std::collections::HashMap;

/// Verdicts on pairs: what is known of them.
pub trait View {
    ghost use Rattle.schema_tree.specs.Sure.{Known, PairIs};

    /// The pairs that are known to be satisfied, and those that are known not to be.
    ghost known: { Self → Known };

    /// The verdict on a pair: Yes for one of the first, No for any other of the second, and Unknown for all others. It
    /// takes no memory.
    fn pair(&self, pair: Pair) -> Verdict
        ensures { PairIs (known self.now) pair result };
}

/// The verdict with Yes and No exchanged.
fn negated(verdict: Verdict) -> Verdict
    ensures { result ≡ opposite verdict }
{
    match verdict {
        Verdict::Yes => Verdict::No,
        Verdict::No => Verdict::Yes,
        Verdict::Unknown => Verdict::Unknown,
    }
}

/// Whether the node is a term of the table that satisfies the constraint (ShEx 2.1, section 5.4).
pub fn satisfies(
    alloc: Global,
    terms: &TermTable,
    node: TermId,
    constraint: &NodeConstraint,
) -> Result<bool, AllocError>
    ensures { IfOk result (λ b. IsTrue b ↔ SatNodeAt constraint.now (slice_get terms.now node.0)) }
{
    if (node.0 as usize) < terms.len() {
        constraint.holds(alloc, terms.get(node))
    } else {
        Ok(false)
    }
}

/// What is asked about expressions: their verdicts on one node under one view.
#[derive(Drop)]
struct Question<'a, V> {
    alloc: Global,
    schema: &'a Schema,
    terms: &'a TermTable,
    node: TermId,
    view: &'a V,
}

impl<V: View> Question<'_, V> {
    /// The verdict on an expression. Those on the ShapeAnds and ShapeOrs that it comes to are kept.
    #[cycle(verdicts)]
    fn verdict(
        &self,
        expr: ExprId,
        kept: &mut HashMap<ExprId, Verdict>,
    ) -> Result<Verdict, AllocError>
        requires loaded { IsLoaded self.now.schema.now }
        requires kept { AreKept (IsSure self.now.schema.now self.now.terms.now (V.known self.now.view.now) self.now.node) (get same_expr kept.old) }
        ensures sure { IfOk result (IsSure self.now.schema.now self.now.terms.now (V.known self.now.view.now) self.now.node expr) }
        ensures kept { AreKept (IsSure self.now.schema.now self.now.terms.now (V.known self.now.view.now) self.now.node) (get same_expr kept.new) }
    {
        match self.schema.exprs.as_slice().get(expr.0 as usize) {
            Some(Expr::And(members)) => {
                self.kept_or_joined(expr, members.as_slice(), Verdict::No, kept)
            }
            Some(Expr::Or(members)) => {
                self.kept_or_joined(expr, members.as_slice(), Verdict::Yes, kept)
            }
            Some(Expr::Not(member)) => Ok(negated(self.verdict(*member, kept)?)),
            Some(Expr::Node(constraint)) => {
                let fits = satisfies(self.alloc, self.terms, self.node, constraint)?;
                if fits {
                    Ok(Verdict::Yes)
                } else {
                    Ok(Verdict::No)
                }
            }
            Some(Expr::Shape(shape)) => {
                let node = self.node;
                let shape = *shape;
                Ok(self.view.pair(Pair { node, shape }))
            }
            None => Ok(Verdict::No),
        }
    }

    /// The verdict on an expression with these members, any of which decides it by the given verdict: the one that is
    /// kept, or else it is found and kept.
    #[cycle(verdicts)]
    fn kept_or_joined(
        &self,
        expr: ExprId,
        members: &[ExprId],
        decisive: Verdict,
        kept: &mut HashMap<ExprId, Verdict>,
    ) -> Result<Verdict, AllocError>
        requires loaded { IsLoaded self.now.schema.now }
        requires entry { IsDecidedBy decisive members.now (entry self.now.schema.now expr) }
        requires kept { AreKept (IsSure self.now.schema.now self.now.terms.now (V.known self.now.view.now) self.now.node) (get same_expr kept.old) }
        ensures sure { IfOk result (IsSure self.now.schema.now self.now.terms.now (V.known self.now.view.now) self.now.node expr) }
        ensures kept { AreKept (IsSure self.now.schema.now self.now.terms.now (V.known self.now.view.now) self.now.node) (get same_expr kept.new) }
    {
        if let Some(verdict) = kept.get(&expr) {
            return Ok(*verdict);
        }
        let verdict = self.joined(expr, members, decisive, kept)?;
        kept.insert(expr, verdict)?;
        Ok(verdict)
    }

    /// The verdict on an expression with these members, found from them.
    #[cycle(verdicts)]
    fn joined(
        &self,
        expr: ExprId,
        members: &[ExprId],
        decisive: Verdict,
        kept: &mut HashMap<ExprId, Verdict>,
    ) -> Result<Verdict, AllocError>
        requires loaded { IsLoaded self.now.schema.now }
        requires entry { IsDecidedBy decisive members.now (entry self.now.schema.now expr) }
        requires kept { AreKept (IsSure self.now.schema.now self.now.terms.now (V.known self.now.view.now) self.now.node) (get same_expr kept.old) }
        ensures sure { IfOk result (IsSure self.now.schema.now self.now.terms.now (V.known self.now.view.now) self.now.node expr) }
        ensures kept { AreKept (IsSure self.now.schema.now self.now.terms.now (V.known self.now.view.now) self.now.node) (get same_expr kept.new) }
    {
        let mut verdict = negated(decisive);
        for member in members {
            let found = self.verdict(*member, kept)?;
            if found == decisive {
                return Ok(found);
            }
            if found == Verdict::Unknown {
                verdict = Verdict::Unknown;
            }
        }
        Ok(verdict)
    }
}

/// The verdict on a node with an expression, and no other is: No for a ShapeAnd with a member that is No, else Unknown
/// where a member is, else Yes; for a ShapeOr the other way round; a ShapeNot exchanges Yes and No, a node constraint is
/// decided, and a Shape has the view's verdict on its pair (ShEx 2.1, section 5.3, with three answers). An expression
/// that the schema does not have is No. It fails only for want of memory, which ShapeAnds, ShapeOrs and node constraints with facets ask for.
pub fn sure<V: View>(
    alloc: Global,
    schema: &Schema,
    terms: &TermTable,
    node: TermId,
    expr: ExprId,
    view: &V,
) -> Result<Verdict, AllocError>
    requires { IsLoaded schema.now }
    ensures verdict { IfOk result (IsSure schema.now terms.now (V.known view.now) node expr) }
    ensures no_other { IfOk result (λ v. (w : Verdict) → IsSure schema.now terms.now (V.known view.now) node expr w → w ≡ v) }
{
    let question = Question {
        alloc,
        schema,
        terms,
        node,
        view,
    };
    let mut kept = HashMap::new(alloc);
    question.verdict(expr, &mut kept)
}

/// Whether the value of an occurrence is satisfied at a node, as far as the view knows: where the verdict is Unknown,
/// it may be exactly if `lean` is `Possible`. An absent value is satisfied.
pub fn may_hold<V: View>(
    alloc: Global,
    schema: &Schema,
    terms: &TermTable,
    view: &V,
    lean: Lean,
    node: TermId,
    value: Option<ExprId>,
) -> Result<bool, AllocError>
    requires { IsLoaded schema.now }
    ensures { IfOk result (λ b. IsTrue b ↔ MayHold schema.now terms.now (V.known view.now) lean node value) }
{
    let Some(expr) = value else {
        return Ok(true);
    };
    let verdict = sure(alloc, schema, terms, node, expr, view)?;
    Ok(match lean {
        Lean::Possible => verdict != Verdict::No,
        Lean::Impossible => verdict == Verdict::Yes,
    })
}

/// Whether the value of an occurrence is not satisfied at a node, as far as the view knows: where the verdict is Unknown,
/// it may be so exactly if `lean` is `Possible`. An absent value is satisfied.
pub fn may_fail<V: View>(
    alloc: Global,
    schema: &Schema,
    terms: &TermTable,
    view: &V,
    lean: Lean,
    node: TermId,
    value: Option<ExprId>,
) -> Result<bool, AllocError>
    requires { IsLoaded schema.now }
    ensures { IfOk result (λ b. IsTrue b ↔ MayFail schema.now terms.now (V.known view.now) lean node value) }
{
    let Some(expr) = value else {
        return Ok(false);
    };
    let verdict = sure(alloc, schema, terms, node, expr, view)?;
    Ok(match lean {
        Lean::Possible => verdict != Verdict::Yes,
        Lean::Impossible => verdict == Verdict::No,
    })
}
