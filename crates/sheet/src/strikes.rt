// Striking an entry.
ghost use Rattle.std.specs.Prelude.{◌≡◌};
ghost use Rattle.sheet.specs.Strike.{strike_call, CountsTheStruck};
ghost use Rattle.sheet.specs.Law.{StaysReliable};
ghost use Rattle.sheet.specs.View.{view, leaving};

use crate::error::SheetError;
use crate::redo::{place_of, redo};
use crate::sheet::Sheet;
use crate::tests::is_atom;
use book::book::Book;

impl<'b, B: Book> Sheet<'b, B> {
    // Takes off the atom's entry, and each later one that is not allowed without it. Answers how many it took off.
    pub fn strike(&mut self, atom: u32) -> Result<u32, SheetError>
        ensures does { (result, view B.meaning self.new) ≡ leaving (λ R s. strike_call R s atom) (view B.meaning self.old) }
        ensures keeps { StaysReliable (view B.meaning self.old) (view B.meaning self.new) }
        ensures counts { CountsTheStruck (view B.meaning self.old).rules (view B.meaning self.old).state atom }
    {
        self.take_off(atom)
    }

    // The laws of the call above are proved from this answer, once and not at each place where it returns.
    fn take_off(&mut self, atom: u32) -> Result<u32, SheetError>
        ensures { (result, view B.meaning self.new) ≡ leaving (λ R s. strike_call R s atom) (view B.meaning self.old) }
    {
        self.check_open()?;
        if !is_atom(self.book.atoms(), atom) {
            return Err(SheetError::UnknownAtom(0));
        }
        let at = place_of(&self.entries, atom).ok_or(SheetError::NoEntry)?;
        let before = self.entries.len();
        let kept = redo(
            self.book,
            &self.answer,
            &self.assumed,
            &mut self.marks,
            &mut self.entries,
            at,
        );
        self.entries.truncate(kept);
        Ok((before - kept) as u32)
    }
}
