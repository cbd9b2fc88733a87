// A whole text.
ghost use Rattle.std.specs.Prelude.{◌≡◌, ◌≤◌, true, length, replicate, Ok};
ghost use Rattle.std.proofs.lemmas.List.Edits.{sets};
ghost use Rattle.reader.specs.Fill.{listed};
ghost use Rattle.reader.specs.Read.{begins, statements_of, read_answer, EveryTextHasItsVerdict};
ghost use Rattle.reader.specs.Held.{held, held_after, has_room_in, SameLists, ReadInto};
ghost use Rattle.reader.specs.ReadLaw.{ReadsExactlyPrograms, SaidTogether, WrittenReadsBack, FillsTheBook};
ghost use Rattle.reader.specs.Scan.{nothing, counts_of};
ghost use Rattle.aspif.specs.Texts.{heading};

use crate::fills::{fill_assumed, fill_rules};
use crate::lists::Lists;
use crate::names::fill_names;
use crate::pieces::Counts;
use crate::statements::Statements;
use crate::survey::survey;
use aspif::error::TextError;

const HEADING: &[u8] = b"asp 1 0 0\n";

#[tactic(auto, unfolding(aspif::specs::Texts::heading))]
fn has_heading(text: &[u8]) -> bool
    ensures { result ≡ begins heading text.now }
{
    text.starts_with(HEADING)
}

// What the text holds, or the first fault from the left.
pub(crate) fn counts_of(text: &[u8]) -> Result<Counts, TextError>
    ensures { result ≡ counts_of nothing (statements_of text.now) }
{
    if text.len() > 65_536 {
        return Err(TextError::OverLimit(0));
    }
    if !has_heading(text) {
        return Err(TextError::WrongHeading);
    }
    survey(text)
}

// Zeros at the front of a list.
fn clear_front(list: &mut [u32], count: usize)
    requires { count ≤ length list.old }
    ensures { list.new ≡ sets list.old 0 (replicate count 0) }
{
    list[..count].fill(0);
}

impl Lists<'_> {
    // Whether each list is long enough.
    fn has_room(&self, counts: Counts) -> bool
        ensures { result ≡ has_room_in (held self.now) counts }
    {
        let atoms = counts.atoms as usize;
        counts.integers <= self.integers.len()
            && counts.rules <= self.starts.len()
            && atoms <= self.places.len()
            && atoms <= self.lengths.len()
            && counts.assumed <= self.assumed.len()
    }

    // All lists from a text that has been counted. Nothing is refused here, as `done` says; a pen's call alone could refuse.
    fn fill(&mut self, text: &[u8], counts: Counts) -> Result<(), TextError>
        requires counted { counts_of nothing (statements_of text.now) ≡ Ok counts }
        requires room { has_room_in (held self.old) counts ≡ true }
        ensures done { result ≡ Ok tt }
        ensures lists { held self.new ≡ held_after (listed (statements_of text.now)) (held self.old) }
        ensures same { SameLists self.old self.new }
    {
        let atoms = counts.atoms as usize;
        clear_front(self.places, atoms);
        clear_front(self.lengths, atoms);
        fill_rules(Statements::new(text), self.integers, self.starts)?;
        fill_assumed(Statements::new(text), self.assumed)?;
        fill_names(Statements::new(text), self.places, self.lengths);
        Ok(())
    }
}

// Fills the lists from a text, each from its front on, and answers what the text holds.
#[tactic(auto, unfolding(crate::specs::Read::read_answer), using(crate::proofs::Forward::every_text_has_its_verdict, crate::proofs::Programs::reads_exactly_programs, crate::proofs::Together::said_together, crate::proofs::Back::written_reads_back))]
pub fn read(text: &[u8], lists: &mut Lists<'_>) -> Result<Counts, TextError>
    ensures answer { result ≡ read_answer text.now (has_room_in (held lists.old)) }
    ensures left { ReadInto text.now lists.old lists.new }
    ensures verdict { EveryTextHasItsVerdict text.now }
    ensures programs { ReadsExactlyPrograms text.now }
    ensures together { SaidTogether text.now }
    ensures back { WrittenReadsBack text.now }
    ensures book { FillsTheBook result text.now (held lists.new) }
{
    let counts = counts_of(text)?;
    if !lists.has_room(counts) {
        return Err(TextError::TooShort);
    }
    lists.fill(text, counts)?;
    Ok(counts)
}
