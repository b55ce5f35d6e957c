//! Lines that are read at nodes and that a shard has not.

ghost use Rattle.std.specs.Prelude.{◌≡◌, ◌&&◌, ◌||◌, ℕ, List, map, not, slice_get};
ghost use Rattle.std.specs.Option.{option_map};
ghost use Rattle.shard_checks.specs.Cover.{is_read_at, missing};
ghost use Rattle.shard_checks.specs.Lines.{is_among};
ghost use Rattle.shard_checks.specs.Sets.{AreCompared, IsLooked, Knows};

use crate::line_set::LineSet;
use crate::lines::{Fields, fields_of};

/// What was looked for last among nodes. Lines that have one subject stand together, so each subject is looked for once.
#[derive(Clone, Copy)]
pub(crate) struct Looked<'a> {
    /// What was looked for.
    pub(crate) text: &'a [u8],
    /// Whether it is one of the nodes.
    pub(crate) is_node: bool,
}

impl<'a> Looked<'a> {
    /// Looks for a text among nodes, unless it was looked for last.
    fn look(&mut self, nodes: &LineSet<'_>, text: &'a [u8])
        ensures text { self.new.text.now ≡ text.now }
        ensures looked { (at : List (List ℕ)) → Knows nodes.now.lines.items at → IsLooked self.old at → IsLooked self.new at }
    {
        if self.text != text {
            *self = Looked {
                text,
                is_node: nodes.has(text),
            };
        }
    }
}

/// What lines are compared with.
#[derive(Clone, Copy)]
pub(crate) struct Compared<'s, 'n, 'w> {
    /// The nodes.
    pub(crate) nodes: &'s LineSet<'n>,
    /// The predicates that are read back.
    pub(crate) read_back: &'s LineSet<'w>,
    /// The lines of the shard.
    pub(crate) shard: &'s LineSet<'n>,
}

impl<'s, 'n, 'w> Compared<'s, 'n, 'w> {
    /// Whether the predicate is read back and the object is one of the nodes.
    fn is_read_back(&self, fields: &Fields<'_>) -> bool
        ensures { (all at back : List (List ℕ)) → AreCompared self.now all at back →
            result ≡ (is_among fields.now.predicate.now back && is_among fields.now.object.now at) }
    {
        self.read_back.has(fields.predicate) && self.nodes.has(fields.object)
    }

    /// Whether a line with these fields is read at one of the nodes, where this is what is said of its subject.
    fn is_read(&self, fields: &Fields<'_>, is_node: bool) -> bool
        ensures { (all at back : List (List ℕ)) → AreCompared self.now all at back →
            result ≡ (is_node || (is_among fields.now.predicate.now back && is_among fields.now.object.now at)) }
    {
        is_node || self.is_read_back(fields)
    }

    /// Whether the line is read at one of the nodes.
    fn is_read_at<'a>(&self, line: &'a [u8], looked: &mut Looked<'a>) -> bool
        ensures read { (all at back : List (List ℕ)) → AreCompared self.now all at back → IsLooked looked.old at →
            result ≡ is_read_at at back line.now }
        ensures looked { (all at back : List (List ℕ)) → AreCompared self.now all at back → IsLooked looked.old at → IsLooked looked.new at }
    {
        let fields = fields_of(line);
        looked.look(self.nodes, fields.subject);
        self.is_read(&fields, looked.is_node)
    }

    /// Whether the line is read at one of the nodes and is none of the shard's.
    fn is_missing<'a>(&self, line: &'a [u8], looked: &mut Looked<'a>) -> bool
        ensures missing { (all at back : List (List ℕ)) → AreCompared self.now all at back → IsLooked looked.old at →
            result ≡ (is_read_at at back line.now && not (is_among line.now all)) }
        ensures looked { (all at back : List (List ℕ)) → AreCompared self.now all at back → IsLooked looked.old at → IsLooked looked.new at }
    {
        self.is_read_at(line, looked) && !self.shard.has(line)
    }

    /// The first of the lines that is read at one of the nodes and is none of the shard's, if there is one.
    pub(crate) fn first_missing<'a>(&self, lines: &[&'a [u8]]) -> Option<&'a [u8]>
        ensures { (all at back : List (List ℕ)) → AreCompared self.now all at back →
            option_map (λ l. l.now) result ≡ slice_get (missing (map (λ l. l.now) lines.now) all at back) 0 }
    {
        let mut looked = Looked {
            text: b"",
            is_node: self.nodes.has(b""),
        };
        for line in lines {
            if self.is_missing(line, &mut looked) {
                return Some(*line);
            }
        }
        None
    }
}
