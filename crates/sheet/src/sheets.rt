// Making a sheet, looking at it, and entering.
ghost use Rattle.std.specs.Prelude.{◌≡◌, cond, Ok, Err, IfOk, slice_set};
ghost use Rattle.sheet.specs.declared.error.SheetError.TheVariants.{WrongState};
ghost use Rattle.sheet.specs.Judges.{rules_of, answer_of, marks_of};
ghost use Rattle.sheet.specs.States.{new as blank, marks};
ghost use Rattle.sheet.specs.Law.{SoundAndReliable};
ghost use Rattle.sheet.specs.LookUps.{mark_of, entry_in};
ghost use Rattle.sheet.specs.Marks.{claim, mark_for};
ghost use Rattle.sheet.specs.View.{view};

use crate::error::SheetError;
use crate::judge::Judge;
use crate::mark::Mark;
use crate::proposal::Proposal;
use crate::sheet::Sheet;
use crate::tests::{is_atom, mark_at};
use base::parts::{item, put};
use book::book::Book;
use std::alloc::{AllocError, Global};

// A place for every atom that a book can have, and one for 0, which is none. A function, since a proof that sees the number
// takes the lists apart item by item; that was tried with a `const`.
fn places() -> usize
    ensures { result ≡ 1025 }
{
    1025
}

impl<'b, B: Book> Sheet<'b, B> {
    // A sheet that is not open, without entries. All memory that it will ever need is asked for here.
    pub fn new(heap: Global, book: &'b B) -> Result<Sheet<'b, B>, AllocError>
        ensures is { IfOk result (λ s. view B.meaning s ≡ record { rules = B.meaning book.now; state = blank }) }
        ensures sound { IfOk result (λ s. SoundAndReliable (view B.meaning s)) }
    {
        let n = places();
        let answer = vec![in heap; false; n]?;
        let assumed = vec![in heap; false; n]?;
        let marks = vec![in heap; Mark::Unmarked; n]?;
        let entries = Vec::with_capacity(heap, n)?;
        Ok(Sheet {
            book,
            opened: false,
            answer,
            assumed,
            entries,
            marks,
        })
    }

    // A refusal unless the sheet is open.
    pub(crate) fn check_open(&self) -> Result<(), SheetError>
        ensures { result ≡ cond (view B.meaning self.now).state.opened (Ok tt) (Err WrongState) }
    {
        if self.opened {
            Ok(())
        } else {
            Err(SheetError::WrongState)
        }
    }

    // What a proposal is judged by now.
    pub(crate) fn judge(&self) -> Judge<'_, B>
        ensures rules { rules_of B.meaning result ≡ (view B.meaning self.now).rules }
        ensures answer { answer_of result ≡ (view B.meaning self.now).state.answer }
        ensures marks { marks_of result ≡ marks (view B.meaning self.now).state }
    {
        Judge {
            book: self.book,
            answer: &self.answer,
            marks: &self.marks,
        }
    }

    // The mark of an atom of the book.
    pub fn mark(&self, atom: u32) -> Option<Mark>
        ensures { result ≡ mark_of (view B.meaning self.now) atom }
    {
        is_atom(self.book.atoms(), atom).then_some(mark_at(&self.marks, atom))
    }

    // The entry at a position, counted from 0.
    pub fn entry(&self, at: u32) -> Option<Proposal>
        ensures { result ≡ entry_in (view B.meaning self.now) at }
    {
        item(&self.entries, at as usize)
    }
}

// Marks an atom as a proposal for it says.
pub(crate) fn put_mark(marks: &mut [Mark], proposal: Proposal)
    ensures { marks.new ≡ slice_set marks.old proposal.atom (mark_for (claim proposal.reason)) }
{
    put(marks, proposal.atom as usize, Mark::from(proposal.reason));
}
