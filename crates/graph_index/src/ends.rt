//! The two ends of a triple.

ghost use Rattle.std.specs.Prelude.{◌≡◌};
ghost use Rattle.graph_index.specs.Rows.{node_across, node_at};

use rdf_terms::terms::{TermId, Triple};

/// The end of a triple at which a node stands.
#[derive(Clone, Copy, Debug)]
pub(crate) enum End {
    /// The node is the subject.
    Subject,
    /// The node is the object.
    Object,
}

impl End {
    /// The node at this end.
    pub(crate) fn node_of(self, triple: &Triple) -> TermId
        ensures { result ≡ node_at self triple.now }
    {
        match self {
            End::Subject => triple.s,
            End::Object => triple.o,
        }
    }

    /// The node at the other end.
    pub(crate) fn node_across(self, triple: &Triple) -> TermId
        ensures { result ≡ node_across self triple.now }
    {
        match self {
            End::Subject => triple.o,
            End::Object => triple.s,
        }
    }
}
