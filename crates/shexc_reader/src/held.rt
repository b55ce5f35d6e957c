//! What is read behind a value that is held.

ghost use Rattle.std.specs.Prelude.{◌≡◌, ℕ, IfOk, true, false};
ghost use Rattle.rdf_cursor.specs.Cursors.{ahead, source_in};
ghost use Rattle.rdf_cursor.specs.Lent.{spelled};
ghost use Rattle.schema_documents.specs.Tree.{ShapeExpr, expr_of};
ghost use Rattle.term_tokens.specs.Scopes.{scope_in};
ghost use Rattle.shexc_constraints.specs.Reading.{annotations, notes};
ghost use Rattle.shexc_constraints.specs.Stops.{Gives};
ghost use Rattle.shexc_constraints.specs.Symbols.{mark};
ghost use Rattle.shexc_reader.specs.Reading as reading;
ghost use Rattle.shexc_reader.specs.Reading.{level};
ghost use Rattle.shexc_reader.specs.Trees.{both};

use rdf_cursor::{Cursor, Symbol};
use rdf_lex::Token;
use schema_documents::DocExpr;
use shexc_constraints::Stop;
use shexc_constraints::constraints::non_literal;
use shexc_constraints::parts::{annotations, notes};
use shexc_constraints::tokens::take;
use term_tokens::Names;

/// A value with the token of a symbol behind it.
pub fn followed_by<'a, T: Drop>(
    c: &mut Cursor<'a>,
    sought: Symbol,
    held: T,
) -> Result<(T, Token<'a>), Stop>
    ensures gives { Gives (λ p. spelled p.1) result (ahead c.new) (mark sought (ahead c.old)) }
    ensures held { IfOk result (λ p. p.0 ≡ held) }
    ensures source { source_in c.new ≡ source_in c.old }
{
    let token = take(c, sought)?;
    Ok((held, token))
}

/// A value with annotations behind it, where they may stand.
pub fn noted<T: Drop>(
    c: &mut Cursor<'_>,
    names: &Names<'_>,
    whole: bool,
    held: T,
) -> Result<T, Stop>
    ensures gives { Gives (λ x. tt) result (ahead c.new) (notes (scope_in names.now) whole (ahead c.old)) }
    ensures held { IfOk result (λ x. x ≡ held) }
    ensures source { source_in c.new ≡ source_in c.old }
{
    notes(c, names, whole)?;
    Ok(held)
}

/// A value with annotations behind it.
pub fn annotated<T: Drop>(c: &mut Cursor<'_>, names: &Names<'_>, held: T) -> Result<T, Stop>
    ensures gives { Gives (λ x. tt) result (ahead c.new) (annotations (scope_in names.now) (ahead c.old)) }
    ensures held { IfOk result (λ x. x ≡ held) }
    ensures source { source_in c.new ≡ source_in c.old }
{
    annotations(c, names)?;
    Ok(held)
}

/// A constraint with its annotations.
#[tactic(auto, unfolding(crate::specs::Reading::constraint_behind))]
fn noted_constraint(c: &mut Cursor<'_>, names: &Names<'_>, whole: bool) -> Result<DocExpr, Stop>
    ensures gives { (depth : ℕ) (first : ShapeExpr) → Gives (λ e. (both first (expr_of e), false)) result (ahead c.new) (reading.constraint_behind true (scope_in names.now) depth (level true (scope_in names.now) depth) whole first (ahead c.old)) }
    ensures source { source_in c.new ≡ source_in c.old }
{
    let constraint = non_literal(c, names)?;
    noted(c, names, whole, constraint)
}

/// A value with a constraint and its annotations behind it.
pub fn with_constraint<T: Drop>(
    c: &mut Cursor<'_>,
    names: &Names<'_>,
    whole: bool,
    held: T,
) -> Result<(T, DocExpr), Stop>
    ensures gives { (depth : ℕ) (first : ShapeExpr) → Gives (λ p. (both first (expr_of p.1), false)) result (ahead c.new) (reading.constraint_behind true (scope_in names.now) depth (level true (scope_in names.now) depth) whole first (ahead c.old)) }
    ensures held { IfOk result (λ p. p.0 ≡ held) }
    ensures source { source_in c.new ≡ source_in c.old }
{
    let constraint = noted_constraint(c, names, whole)?;
    Ok((held, constraint))
}
