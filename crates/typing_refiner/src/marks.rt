//! Verdicts that are kept beside the pairs.

ghost use Rattle.std.specs.Prelude.{◌≡◌};

use demand::table::PairTable;
use schema_tree::schema::Pair;
use schema_tree::sure::View;
use schema_tree::verdicts::Verdict;

/// What is known by the marks of the pairs of a table, and of other pairs by what is kept.
#[derive(Clone, Copy)]
pub struct MarkView<'a, K> {
    /// The pairs.
    pub table: &'a PairTable,
    /// Their marks.
    pub marks: &'a [Verdict],
    /// What is known of other pairs.
    pub kept: &'a K,
}

impl<K: View> View for MarkView<'_, K> {
    ghost use Rattle.removal_laws.specs.Marks.{known_by};

    ghost known = { λ v. known_by (K.known v.kept.now) v.table.now v.marks.now };

    fn pair(&self, pair: Pair) -> Verdict {
        let _count = self.table.len();
        match self.table.find(pair) {
            Some(place) => match self.marks.get(place as usize) {
                Some(mark) => *mark,
                None => Verdict::Unknown,
            },
            None => self.kept.pair(pair),
        }
    }
}
