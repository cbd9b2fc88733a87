// A reason sheet over one book.
ghost use Rattle.std.specs.Prelude.{◌≡◌, ℕ, ◌+◌, ◌≤◌, false, vec_len, vec_capacity};
ghost use Rattle.sheet.specs.Marks.{marked_all, assuming};
ghost use Rattle.sheet.specs.Kept.{flagged, marking, unmarked_in};

use crate::mark::Mark;
use crate::proposal::Proposal;
use book::book::Book;

// The memory of all lists is asked for once, so that a sheet that is not open has them too, and `opened` says which it is.
// The answer, the assumed atoms and the marks are three sets of atoms, and each is judged by alone: one list of records would
// have to be read apart wherever one of them is asked.
#[derive(Drop)]
pub struct Sheet<'b, B: Book> {
    pub(crate) book: &'b B,
    pub(crate) opened: bool,
    pub(crate) answer: Vec<bool>,
    pub(crate) assumed: Vec<bool>,
    pub(crate) entries: Vec<Proposal>,
    pub(crate) marks: Vec<Mark>,
    // the marks are those of the assumed atoms and the entries
    ghost tied: { (a : ℕ) → marking marks.items a ≡ marked_all (assuming (flagged assumed.items)) entries.items a },
    // each list has a place for every atom that a book can have
    ghost answers: { vec_len answer ≡ 1025 },
    ghost assumes: { vec_len assumed ≡ 1025 },
    ghost sized: { vec_len marks ≡ 1025 },
    // room is kept for an entry of each atom that is unmarked
    ghost room: { vec_len entries + unmarked_in marks.items ≤ 1024 },
    ghost reserved: { 1024 ≤ vec_capacity entries },
    // a sheet that is not open has no answer and assumes nothing
    ghost unanswered: { (a : ℕ) → opened ≡ false → flagged answer.items a ≡ false },
    ghost unassuming: { (a : ℕ) → opened ≡ false → flagged assumed.items a ≡ false },
}
