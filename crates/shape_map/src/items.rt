//! Shape maps as values.

ghost use Rattle.std.specs.Prelude.{◌≡◌};

use rdf_terms::terms::Term;
use schema_tree::schema::Target;
use std::marker::Model;

/// The end of a triple at which the nodes stand that a triple pattern selects.
#[derive(Clone, Copy, Debug, PartialEq, Eq)]
pub enum Focus {
    /// The subject.
    Subject,
    /// The object.
    Object,
}

/// `{FOCUS predicate other}` or `{other predicate FOCUS}` (ShapeMap Structure and Language, section 3.1).
#[derive(Debug, Drop, PartialEq, Eq)]
pub struct TriplePattern {
    /// The end at which the selected nodes stand.
    pub focus: Focus,
    /// The predicate, an IRI.
    pub predicate: Term,
    /// The node at the other end, an IRI or a blank node where that is the subject; `None` is `_`, any node.
    pub other: Option<Term>,
}

/// What selects nodes (ShapeMap Structure and Language, section 3.1).
#[derive(Debug, Drop, PartialEq, Eq)]
pub enum Selector {
    /// This node.
    Node(Term),
    /// The nodes at the focus of the triples that a pattern matches.
    Triples(TriplePattern),
}

/// A shape association of a map: what is asked of the nodes of a selector.
#[derive(Debug, Drop, PartialEq, Eq)]
pub struct Item {
    /// What selects the nodes.
    pub selector: Selector,
    /// The shape expression that is meant.
    pub target: Target,
    /// Whether the nodes are to satisfy it; with `!` behind the `@` they are not to.
    pub want: bool,
}

/// A shape map, which contracts see as the list of its items.
#[derive(Debug, Drop)]
pub struct ShapeMap {
    items: Vec<Item>,
}

impl Model for ShapeMap {
    ghost use Rattle.std.specs.Prelude.{List};
    ghost use Rattle.shape_map.specs.declared.items.Item.{Item};

    ghost Value = { List Item };

    ghost view = { λ m. m.items.items };
}

impl ShapeMap {
    /// The map of these items, without taking memory.
    pub(crate) fn of(items: Vec<Item>) -> ShapeMap
        ensures { result ≡ items.items }
    {
        ShapeMap { items }
    }

    /// The items in reading order.
    pub fn items(&self) -> &[Item]
        ensures items { result.now ≡ self.now }
    {
        self.items.as_slice()
    }
}
