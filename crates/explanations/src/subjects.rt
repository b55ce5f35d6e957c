//! The table that numbers subjects.

ghost use Rattle.std.specs.Prelude.{◌≡◌, ◌<◌, ◌^◌, [], IfOk, OnOk, Some, length, slice_get};
ghost use Rattle.lists.specs.Additions.{Adds};
ghost use Rattle.lists.specs.Distinct.{AreDistinct};

use crate::subject::Subject;
use indexmap::IndexSet;
use std::alloc::{AllocError, Global};
use std::marker::Model;

/// A list of distinct subjects. A subject's number is its place in the list.
#[derive(Drop)]
pub struct Subjects {
    subjects: IndexSet<Subject>,
}

impl Model for Subjects {
    ghost use Rattle.std.specs.Prelude.{List};
    ghost use Rattle.explanations.specs.declared.subject.Subject.{Subject};

    ghost Value = { List Subject };

    ghost view = { λ s. s.subjects.keys };
}

impl Subjects {
    /// No subject.
    pub fn new(alloc: Global) -> Subjects
        ensures { result ≡ [] }
    {
        Subjects {
            subjects: IndexSet::new(alloc),
        }
    }

    /// How many subjects there are.
    pub fn len(&self) -> usize
        ensures count { result ≡ length self.now }
        ensures distinct { AreDistinct self.now }
        ensures few { result < 2 ^ 63 }
    {
        self.subjects.len()
    }

    /// The subject of a number.
    pub fn at(&self, number: usize) -> Subject
        requires { number < length self.now }
        ensures { slice_get self.now number ≡ Some result }
    {
        self.subjects.as_slice()[number]
    }

    /// The number of a subject, which goes last where it is new.
    pub fn number(&mut self, subject: Subject) -> Result<usize, AllocError>
        ensures number { IfOk result (λ k. slice_get self.new k ≡ Some subject) }
        ensures added { OnOk result (Adds self.old subject self.new) }
        ensures few { IfOk result (λ k. k < 2 ^ 63) }
    {
        let (number, _) = self.subjects.insert_full(subject)?;
        // The number of subjects tells contracts that they are not too many.
        let _count = self.subjects.len();
        Ok(number)
    }
}
