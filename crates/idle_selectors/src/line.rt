//! Lines, each once.

ghost use Rattle.std.specs.Prelude.{List, [], ℕ, ◌≡◌, ◌∷◌, OnOk};
ghost use Rattle.std.specs.Cmp.{partial_equiv_from_equiv};
ghost use Rattle.std.specs.Cmp.Lexicographic.{nat_list_eq_equiv};
ghost use Rattle.std.specs.Cmp.Rules.{hashing};
ghost use Rattle.std.proofs.Common.{rules};
ghost use Rattle.lists.specs.Additions.{Adds};
ghost use Rattle.idle_selectors.specs.Texts.{same_line};

use indexmap::IndexSet;
use std::alloc::{AllocError, Global};
use std::hash::{Hash, Hasher};
use std::marker::Model;

/// A line, which contracts see as its bytes.
#[derive(Debug, Drop)]
pub(crate) struct Line {
    bytes: Vec<u8>,
}

impl Model for Line {
    ghost use Rattle.std.specs.Prelude.{List, ℕ};

    ghost Value = { List ℕ };

    ghost view = { λ l. l.bytes.items };
}

impl Line {
    /// The line of these bytes, without taking memory.
    pub(crate) fn of(bytes: Vec<u8>) -> Line
        ensures { result ≡ bytes.items }
    {
        Line { bytes }
    }

    /// The bytes.
    pub(crate) fn as_slice(&self) -> &[u8]
        ensures { result.now ≡ self.now }
    {
        self.bytes.as_slice()
    }
}

impl PartialEq for Line {
    ghost eq = { same_line };

    ghost laws = { partial_equiv_from_equiv nat_list_eq_equiv };

    fn eq(&self, other: &Line) -> bool {
        self.as_slice() == other.as_slice()
    }
}

impl Eq for Line {
    ghost laws = { nat_list_eq_equiv };
}

impl Hash for Line {
    ghost hash_input = { λ bytes. bytes ∷ [] };

    ghost respects_eq = { Prim.search (hashing, rules) };

    fn hash<H: Hasher>(&self, state: &mut H) {
        state.write(self.as_slice());
    }
}

/// Lines, each once, in the order in which they were met first.
#[derive(Drop)]
pub(crate) struct Lines {
    lines: IndexSet<Line>,
}

impl Model for Lines {
    ghost use Rattle.std.specs.Prelude.{List, ℕ};

    ghost Value = { List (List ℕ) };

    ghost view = { λ l. l.lines.keys };
}

impl Lines {
    /// No line.
    pub(crate) fn new(alloc: Global) -> Lines
        ensures { result ≡ [] }
    {
        Lines {
            lines: IndexSet::new(alloc),
        }
    }

    /// The lines.
    pub(crate) fn as_slice(&self) -> &[Line]
        ensures { result.now ≡ self.now }
    {
        self.lines.as_slice()
    }

    /// Adds a line of these bytes behind the others, unless it is there.
    pub(crate) fn add(&mut self, bytes: Vec<u8>) -> Result<(), AllocError>
        ensures { OnOk result (Adds self.old bytes.items self.new) }
    {
        self.lines.insert(Line::of(bytes))?;
        Ok(())
    }
}
