// Opening a sheet.
ghost use Rattle.std.specs.Prelude.{◌≡◌};
ghost use Rattle.sheet.specs.Open.{open_call};
ghost use Rattle.sheet.specs.Law.{StaysReliable};
ghost use Rattle.sheet.specs.View.{view, leaving};

use crate::error::SheetError;
use crate::flags::{put_assumed, put_literals};
use crate::judge::Judge;
use crate::lists::Opening;
use crate::sheet::Sheet;
use book::book::Book;

impl<'b, B: Book> Sheet<'b, B> {
    // Opens the sheet: the positive literals are the answer, and the atoms of the negative ones are assumed to be false.
    pub fn open(&mut self, literals: &[i32]) -> Result<(), SheetError>
        ensures does { (result, view B.meaning self.new) ≡ leaving (λ R s. open_call R s literals.now) (view B.meaning self.old) }
        ensures keeps { StaysReliable (view B.meaning self.old) (view B.meaning self.new) }
    {
        self.begin(literals)
    }

    // The laws of the call above are proved from this answer, once and not at each place where it returns.
    fn begin(&mut self, literals: &[i32]) -> Result<(), SheetError>
        ensures { (result, view B.meaning self.new) ≡ leaving (λ R s. open_call R s literals.now) (view B.meaning self.old) }
    {
        if self.opened {
            return Err(SheetError::WrongState);
        }
        let opening = Opening {
            book: self.book,
            literals,
        };
        if let Some(at) = opening.first_fault() {
            return Err(opening.fault_at(at));
        }
        put_literals(&mut self.answer, &mut self.assumed, literals);
        // the facts of the sheet do not hold here, so the judge is made of its lists
        let judge = Judge {
            book: self.book,
            answer: &self.answer,
            marks: &self.marks,
        };
        if let Some(rule) = judge.first_broken() {
            self.answer.fill(false);
            self.assumed.fill(false);
            return Err(SheetError::ViolatedRule(rule));
        }
        self.opened = true;
        self.entries.clear();
        put_assumed(&mut self.marks, &self.assumed);
        Ok(())
    }
}
