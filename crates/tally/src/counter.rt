//! A counter of steps.
ghost use Rattle.std.specs.Prelude.{◌≡◌, ◌+◌, ◌<◌};

use std::marker::{Brand, Model};
use std::mem::size_of;
use std::sync::ledger::{Blank, Book, Ledger, Share};

/// A counter of steps, seen as the number of steps so far.
///
/// It has no bytes and its calls do nothing at run time: only contracts know the number. How often a call ticks is the
/// number after it less the number before it.
#[derive(Drop)]
pub struct Steps<L: Ledger> {
    book: Book<L>,
    share: Share<L>,
}

impl<L: Ledger> Model for Steps<L> {
    ghost use Rattle.std.specs.Prelude.{ℕ, ◌<◌};

    ghost Value = { ℕ };

    ghost view = { λ s. s.book.total };

    ghost invariant = { λ s. 0 < s.share.parts };
}

const _: () = prove!(size_of::<Steps<Brand>>() == 0);

impl<L: Ledger> Steps<L> {
    /// A counter at 0, of a fresh ledger with at least one part.
    pub fn new(blank: Blank) -> Self
        requires name { blank.name ≡ L.name }
        requires parts { blank.parts ≡ L.parts }
        requires some { 0 < blank.parts }
        ensures { result ≡ 0 }
    {
        let (book, share) = blank.open();
        Steps { book, share }
    }

    /// Counts one step.
    pub fn tick(&mut self)
        ensures { self.new ≡ self.old + 1 }
    {
        self.book.add(&mut self.share, 1);
    }
}
