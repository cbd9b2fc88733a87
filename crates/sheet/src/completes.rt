// Completing a sheet.
ghost use Rattle.std.specs.Prelude.{◌≡◌, ℕ, Bool};
ghost use Rattle.base.specs.Closures.{Computes};
ghost use Rattle.sheet.specs.declared.proposal.Reason.{Reason};
ghost use Rattle.sheet.specs.Complete.{admits as admitting, lowest, first_reason, enter_first, round as rounding, rounds as rounds_of, complete_call};
ghost use Rattle.sheet.specs.Kept.{marking};
ghost use Rattle.sheet.specs.Lists.{how_many};
ghost use Rattle.sheet.specs.Marks.{is_unmarked};
ghost use Rattle.sheet.specs.View.{view, changing, leaving};
ghost use Rattle.sheet.specs.Law.{StaysReliable, NeverMisleads};

use crate::error::SheetError;
use crate::mark::Mark;
use crate::proposal::{Proposal, Reason};
use crate::sheet::Sheet;
use crate::tests::is_unmarked;
use book::book::Book;

impl<'b, B: Book> Sheet<'b, B> {
    // Enters what is allowed, in rounds over the atoms, until nothing is. Answers how many atoms stay unmarked.
    pub fn complete(&mut self) -> Result<u32, SheetError>
        ensures does { (result, view B.meaning self.new) ≡ leaving complete_call (view B.meaning self.old) }
        ensures keeps { StaysReliable (view B.meaning self.old) (view B.meaning self.new) }
        ensures honest { NeverMisleads (view B.meaning self.old) }
    {
        self.finish()
    }

    // The laws of the call above are proved from this answer, once and not at each place where it returns.
    fn finish(&mut self) -> Result<u32, SheetError>
        ensures { (result, view B.meaning self.new) ≡ leaving complete_call (view B.meaning self.old) }
    {
        self.check_open()?;
        let atoms = self.book.atoms();
        self.rounds(atoms + 1);
        Ok(count_unmarked(&self.marks, atoms))
    }

    // Whether the sheet has no objection to the reason.
    fn admits(&self, atom: u32, reason: Reason) -> bool
        ensures { result ≡ admitting (view B.meaning self.now).rules (view B.meaning self.now).state atom reason }
    {
        self.judge().allows(Proposal { atom, reason })
    }

    // The reason of a kind by the lowest rule, if one by any rule is admitted.
    fn lowest<F: Fn(u32) -> Reason>(&self, atom: u32, by: F) -> Option<Reason>
        requires { F.IsAlwaysCallable by }
        ensures { (kind : ℕ → Reason) → Computes (F.post by) kind → result ≡ lowest (view B.meaning self.now).rules (view B.meaning self.now).state atom kind }
    {
        (0..self.book.rules())
            .find(|rule| self.admits(atom, by(*rule)))
            .map(by)
    }

    // Support by the lowest rule, else lack of support, else required by the lowest rule. (A chain of `or_else` was tried: of
    // a closure that has the sheet, what it answers is not known after it.)
    fn first_reason(&self, atom: u32) -> Option<Reason>
        ensures { result ≡ first_reason (view B.meaning self.now).rules (view B.meaning self.now).state atom }
    {
        if let Some(reason) = self.lowest(atom, Reason::Support) {
            return Some(reason);
        }
        if self.admits(atom, Reason::Lack) {
            return Some(Reason::Lack);
        }
        self.lowest(atom, Reason::Required)
    }

    // Enters the first reason for the atom, if there is one.
    fn step(&mut self, atom: u32)
        ensures { view B.meaning self.new ≡ changing (λ R s. enter_first R s atom (first_reason R s atom)) (view B.meaning self.old) }
    {
        if let Some(reason) = self.first_reason(atom) {
            let _ = self.take(Proposal { atom, reason });
        }
    }

    fn round(&mut self)
        ensures { view B.meaning self.new ≡ changing rounding (view B.meaning self.old) }
    {
        for atom in 1..=self.book.atoms() {
            self.step(atom);
        }
    }

    // Rounds until one enters nothing, at most so many.
    fn rounds(&mut self, most: u32)
        ensures { view B.meaning self.new ≡ changing (λ R s. rounds_of R most s) (view B.meaning self.old) }
    {
        for _turn in 0..most {
            let before = self.entries.len();
            self.round();
            if self.entries.len() == before {
                return;
            }
        }
    }
}

// How many of the atoms from 1 on pass the test. The test is the caller's: what is counted is said in a call of one line.
fn count_passing<F: Fn(u32) -> bool>(atoms: u32, test: F) -> u32
    requires { F.IsAlwaysCallable test }
    ensures { (p : ℕ → Bool) → Computes (F.post test) p → result ≡ how_many p atoms }
{
    (1..=atoms).filter(|atom| test(*atom)).count() as u32
}

// How many of the atoms from 1 on are unmarked.
fn count_unmarked(marks: &[Mark], atoms: u32) -> u32
    ensures { result ≡ how_many (λ a. is_unmarked (marking marks.now a)) atoms }
{
    count_passing(atoms, |atom| is_unmarked(marks, atom))
}
