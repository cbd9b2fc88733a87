// The rules of a text, read and written again.
ghost use Rattle.std.specs.Prelude.{◌≡◌, List, length};
ghost use Rattle.reader.specs.Statements.{Stmt};
ghost use Rattle.reader.specs.ReadLaw.{Fronts, BookOf};
ghost use Rattle.reader.specs.Held.{held, has_room_in, ReadInto};
ghost use Rattle.numbers.specs.declared.lists.RuleLists.{RuleLists as Rules};
ghost use Rattle.aspif.specs.Write.{write_answer};
ghost use Rattle.report.specs.Compose.{written};
ghost use Rattle.numbers.specs.Numbers.{numbers_book};
ghost use Rattle.report.specs.Rewrite.{book_of, rules_in, put_text, lists_answer, rewrite_answer, or_told, or_told_into};

use crate::fault::Fault;
use crate::telling::tell;
use aspif::writer::write;
use base::parts::part;
use numbers::lists::{Names, RuleLists};
use numbers::numbers::NumbersBook;
use reader::lists::Lists;
use reader::pieces::Counts;
use reader::reading::read;

// What was read, as lists of numbers. The text and the lists are lent apart: the lists are the caller's to use again.
fn rules_of<'a>(counts: Counts, text: &'a [u8], lists: &'a Lists<'_>) -> RuleLists<'a>
    ensures { Fronts counts text.now (held lists.now) result }
{
    let atoms = counts.atoms as usize;
    let names = Names {
        text,
        starts: part(lists.places, 0, atoms),
        lengths: part(lists.lengths, 0, atoms),
    };
    RuleLists {
        atoms: counts.atoms,
        integers: part(lists.integers, 0, counts.integers),
        starts: part(lists.starts, 0, counts.rules),
        names,
    }
}

// The text of a book that the lists spell out.
fn write_checked(rules: RuleLists<'_>, out: &mut [u8]) -> Result<usize, Fault>
    ensures result { result ≡ lists_answer rules.entry (length out.old) }
    ensures buffer { out.new ≡ put_text result (numbers_book rules.entry) out.old }
{
    rules.check()?;
    Ok(write(&NumbersBook::new(rules), out)?)
}

// Where the lists are those of statements, the text of their rules.
fn write_again(
    counts: Counts,
    text: &[u8],
    lists: &Lists<'_>,
    out: &mut [u8],
) -> Result<usize, Fault>
    ensures { (ss : List Stmt) → ((L : Rules) → Fronts counts text.now (held lists.now) L → BookOf ss L) → (result ≡ written (write_answer (book_of ss) (length out.old))) × (out.new ≡ put_text result (book_of ss) out.old) }
{
    let rules = rules_of(counts, text, lists);
    write_checked(rules, out)
}

// Reads a text and puts its rules, as `write` gives them, into the buffer; answers how many bytes. The lists are room
// to work in: they hold afterwards what was read.
pub fn rewrite(text: &[u8], lists: &mut Lists<'_>, out: &mut [u8]) -> Result<usize, Fault>
    ensures result { result ≡ rewrite_answer text.now (has_room_in (held lists.old)) (length out.old) }
    ensures buffer { out.new ≡ put_text result (rules_in text.now) out.old }
    ensures left { ReadInto text.now lists.old lists.new }
{
    let counts = read(text, lists)?;
    write_again(counts, text, lists, out)
}

// The same, with the line of the refusal in the buffer where a text is refused. (An `or_else` was tried: what its closure
// leaves in the buffer is not known after it.)
pub fn rewrite_or_tell(text: &[u8], lists: &mut Lists<'_>, out: &mut [u8]) -> Result<usize, Fault>
    ensures result { result ≡ or_told (rewrite_answer text.now (has_room_in (held lists.old)) (length out.old)) (length out.old) }
    ensures buffer { out.new ≡ or_told_into (rewrite_answer text.now (has_room_in (held lists.old)) (length out.old)) (rules_in text.now) out.old }
    ensures left { ReadInto text.now lists.old lists.new }
{
    match rewrite(text, lists, out) {
        Ok(size) => Ok(size),
        Err(fault) => tell(&fault, out),
    }
}
