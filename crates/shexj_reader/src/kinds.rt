//! Which shape expression or triple expression an object is, by its type (ShEx 2.1, appendix A).

ghost use Rattle.std.specs.Prelude.{◌≡◌, ◌≢◌, IfSome, IsNone, Some};
ghost use Rattle.serde_json.specs.View.{view};
ghost use Rattle.shexj_reader.specs.Keys.{type_of};
ghost use Rattle.shexj_reader.specs.Types.{expr_type, triple_type};

use crate::objects::type_of;
use serde_json::Value;

/// A form of shape expressions (ShEx 2.1, section 5.3), but for a ShapeExternal, which is refused.
#[derive(Clone, Copy, Debug)]
pub(crate) enum ExprKind {
    /// ShapeOr.
    Or,
    /// ShapeAnd.
    And,
    /// ShapeNot.
    Not,
    /// NodeConstraint.
    Node,
    /// Shape.
    Shape,
}

/// A form of triple expressions (ShEx 2.1, section 5.5).
#[derive(Clone, Copy, Debug)]
pub(crate) enum TripleKind {
    /// EachOf.
    Each,
    /// OneOf.
    One,
    /// TripleConstraint.
    Arc,
}

/// The form of the shape expression that the object is, if it is one.
pub(crate) fn expr_kind(value: &Value) -> Option<ExprKind>
    ensures kind { IfSome result (λ kind. type_of (view value.now) ≡ Some (expr_type kind)) }
    ensures none { IsNone result → (kind : ExprKind) → type_of (view value.now) ≢ Some (expr_type kind) }
{
    match type_of(value) {
        Some("ShapeOr") => Some(ExprKind::Or),
        Some("ShapeAnd") => Some(ExprKind::And),
        Some("ShapeNot") => Some(ExprKind::Not),
        Some("NodeConstraint") => Some(ExprKind::Node),
        Some("Shape") => Some(ExprKind::Shape),
        _ => None,
    }
}

/// The form of the triple expression that the object is, if it is one.
pub(crate) fn triple_kind(value: &Value) -> Option<TripleKind>
    ensures kind { IfSome result (λ kind. type_of (view value.now) ≡ Some (triple_type kind)) }
    ensures none { IsNone result → (kind : TripleKind) → type_of (view value.now) ≢ Some (triple_type kind) }
{
    match type_of(value) {
        Some("EachOf") => Some(TripleKind::Each),
        Some("OneOf") => Some(TripleKind::One),
        Some("TripleConstraint") => Some(TripleKind::Arc),
        _ => None,
    }
}
