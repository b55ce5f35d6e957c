//! What an EachOf and a OneOf have in common (ShEx 2.1, section 5.5).

ghost use Rattle.std.specs.Prelude.{◌≡◌, map};
ghost use Rattle.schema_documents.specs.Tree.{each, one, triple, triple_of, triples};

use schema_documents::{DocBody, DocTriple, Label};
use tally::Bound;

/// What an EachOf and a OneOf have.
#[derive(Drop)]
pub(crate) struct Group {
    /// The label, if there is one.
    pub(crate) label: Option<Label>,
    /// How often it comes at least.
    pub(crate) min: u32,
    /// How often it comes at most.
    pub(crate) max: Bound,
    /// The members.
    pub(crate) members: Vec<DocTriple>,
}

/// The EachOf of a group.
pub(crate) fn each_of(group: Group) -> DocTriple
    ensures { triple_of result ≡ triple group.label group.min group.max (each (triples (map triple_of group.members.items))) }
{
    DocTriple {
        label: group.label,
        min: group.min,
        max: group.max,
        body: DocBody::Each(group.members),
    }
}

/// The OneOf of a group.
pub(crate) fn one_of(group: Group) -> DocTriple
    ensures { triple_of result ≡ triple group.label group.min group.max (one (triples (map triple_of group.members.items))) }
{
    DocTriple {
        label: group.label,
        min: group.min,
        max: group.max,
        body: DocBody::One(group.members),
    }
}
