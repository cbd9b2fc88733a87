// The list of literals that a sheet is opened with.
ghost use Rattle.std.specs.Prelude.{◌≡◌};
ghost use Rattle.sheet.specs.Open.{named, unknown_at, repeated_at, faulty_at, first_fault, fault_at};

use crate::error::SheetError;
use crate::tests::is_atom;
use base::parts::{item, part};
use book::book::Book;

fn is_named(literals: &[i32], atom: u32) -> bool
    ensures { result ≡ named literals.now atom }
{
    literals
        .iter()
        .any(|literal| atom == literal.unsigned_abs())
}

// The list, and the book over whose atoms it is.
#[derive(Drop)]
pub(crate) struct Opening<'a, B: Book> {
    pub(crate) book: &'a B,
    pub(crate) literals: &'a [i32],
}

impl<'a, B: Book> Opening<'a, B> {
    fn is_unknown_at(&self, at: usize) -> bool
        ensures { result ≡ unknown_at (B.meaning self.now.book.now) self.now.literals.now at }
    {
        item(self.literals, at).is_some_and(|literal| !is_atom(
            self.book.atoms(),
            literal.unsigned_abs(),
        ))
    }

    fn is_repeated_at(&self, at: usize) -> bool
        ensures { result ≡ repeated_at self.now.literals.now at }
    {
        item(self.literals, at).is_some_and(|literal| {
            is_named(part(self.literals, 0, at), literal.unsigned_abs())
        })
    }

    fn is_faulty_at(&self, at: usize) -> bool
        ensures { result ≡ faulty_at (B.meaning self.now.book.now) self.now.literals.now at }
    {
        self.is_unknown_at(at) || self.is_repeated_at(at)
    }

    // The first position with an atom that the book does not have, or that stands earlier in the list. By its place, since
    // what stands before it counts.
    pub(crate) fn first_fault(&self) -> Option<u32>
        ensures { result ≡ first_fault (B.meaning self.now.book.now) self.now.literals.now }
    {
        (0..self.literals.len())
            .find(|at| self.is_faulty_at(*at))
            .map(|at| at as u32)
    }

    pub(crate) fn fault_at(&self, at: u32) -> SheetError
        ensures { result ≡ fault_at (B.meaning self.now.book.now) self.now.literals.now at }
    {
        if self.is_unknown_at(at as usize) {
            SheetError::UnknownAtom(at)
        } else {
            SheetError::DuplicateAtom(at)
        }
    }
}
