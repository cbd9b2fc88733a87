// Entering a proposal.
ghost use Rattle.std.specs.Prelude.{◌≡◌};
ghost use Rattle.sheet.specs.Enter.{enter_call, TakesTheAllowed};
ghost use Rattle.sheet.specs.Law.{StaysReliable};
ghost use Rattle.sheet.specs.View.{view, leaving};

use crate::error::SheetError;
use crate::proposal::Proposal;
use crate::sheet::Sheet;
use crate::sheets::put_mark;
use book::book::Book;

impl<'b, B: Book> Sheet<'b, B> {
    // Takes the proposal as an entry if it is allowed.
    pub fn enter(&mut self, proposal: Proposal) -> Result<(), SheetError>
        ensures does { (result, view B.meaning self.new) ≡ leaving (λ R s. enter_call R s proposal) (view B.meaning self.old) }
        ensures keeps { StaysReliable (view B.meaning self.old) (view B.meaning self.new) }
        ensures exactly { TakesTheAllowed (view B.meaning self.old).rules (view B.meaning self.old).state proposal }
    {
        self.take(proposal)
    }

    // The laws of the call above are proved from this answer, once and not at each place where it returns.
    pub(crate) fn take(&mut self, proposal: Proposal) -> Result<(), SheetError>
        ensures { (result, view B.meaning self.new) ≡ leaving (λ R s. enter_call R s proposal) (view B.meaning self.old) }
    {
        self.check_open()?;
        self.judge().verdict(proposal)?;
        put_mark(&mut self.marks, proposal);
        self.entries.push_reserved(proposal);
        Ok(())
    }
}
