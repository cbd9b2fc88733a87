// The entries below a struck one, tested again and moved up.
ghost use Rattle.std.specs.Prelude.{◌≡◌, ℕ, ◌+◌, ◌<◌, ◌≤◌, map, length, take, drop, is_ok};
ghost use Rattle.sheet.specs.Enter.{enter_all};
ghost use Rattle.sheet.specs.Marks.{marked_all, assuming};
ghost use Rattle.sheet.specs.Strike.{place_of};
ghost use Rattle.sheet.specs.Verdicts.{verdict};
ghost use Rattle.sheet.specs.Kept.{flagged, marking, unmarked_in, with_marks, mark_assumed, open_with};

use crate::flags::put_assumed;
use crate::judge::Judge;
use crate::mark::Mark;
use crate::proposal::Proposal;
use crate::sheets::put_mark;
use book::book::Book;

// Where the atom's entry stands.
pub(crate) fn place_of(entries: &[Proposal], atom: u32) -> Option<usize>
    ensures { result ≡ place_of entries.now atom }
{
    entries.iter().position(|entry| entry.atom == atom)
}

fn put_marks(marks: &mut [Mark], entries: &[Proposal])
    ensures { marks.new ≡ with_marks marks.old entries.now }
{
    for entry in entries {
        put_mark(marks, *entry);
    }
}

// The assumed atoms and these entries are marked, and nothing else.
fn mark_again(marks: &mut [Mark], assumed: &[bool], entries: &[Proposal])
    requires { length marks.old ≡ length assumed.now }
    ensures { marks.new ≡ with_marks (map mark_assumed assumed.now) entries.now }
{
    put_assumed(marks, assumed);
    put_marks(marks, entries);
}

// Whether an entry is allowed by the marks that stand now.
fn allows<'a, B: Book>(book: &'a B, answer: &'a [bool], marks: &'a [Mark], entry: Proposal) -> bool
    ensures { result ≡ is_ok (verdict (B.meaning book.now) (flagged answer.now) (marking marks.now) entry) }
{
    let judge = Judge {
        book,
        answer,
        marks,
    };
    judge.allows(entry)
}

// The entry at a place goes, and each later one that is still allowed is kept. Answers how many stand then.
// It is lent the lists and not the sheet, whose facts do not hold in between.
pub(crate) fn redo<B: Book>(
    book: &B,
    answer: &[bool],
    assumed: &[bool],
    marks: &mut [Mark],
    entries: &mut [Proposal],
    from: usize,
) -> usize
    requires inside { from < length entries.old }
    requires sized { (length marks.old ≡ 1025) × (length assumed.now ≡ 1025) }
    requires tied { (((a : ℕ) → marking marks.old a ≡ marked_all (assuming (flagged assumed.now)) entries.old a)) × (length entries.old + unmarked_in marks.old ≤ 1024) }
    ensures within { result ≤ length entries.old }
    ensures tied { (a : ℕ) → marking marks.new a ≡ marked_all (assuming (flagged assumed.now)) (take result entries.new) a }
    ensures room { result + unmarked_in marks.new ≤ 1024 }
    ensures kept { open_with answer.now assumed.now (take result entries.new) ≡ enter_all (B.meaning book.now) (open_with answer.now assumed.now (take from entries.old)) (drop (from + 1) entries.old) }
{
    mark_again(marks, assumed, &entries[..from]);
    // Entries move up in the list that is read, so their places are kept by hand; `retain` would be lent the marks, which
    // it has to change, by its closure, and what a closure leaves in a list that it holds is not known.
    let mut to = from;
    for at in from + 1..entries.len() {
        let entry = entries[at];
        if allows(book, answer, marks, entry) {
            put_mark(marks, entry);
            entries[to] = entry;
            to += 1;
        }
    }
    to
}
