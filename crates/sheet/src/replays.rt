// Calls as values, and lists of them on a new sheet.
ghost use Rattle.std.specs.Prelude.{◌≡◌, IfOk};
ghost use Rattle.sheet.specs.KnownRuns.{KnownRunsAreRight};
ghost use Rattle.sheet.specs.Law.{Right};
ghost use Rattle.sheet.specs.Replayed.{call_of, calls_of};
ghost use Rattle.sheet.specs.Runs.{call as calling};
ghost use Rattle.sheet.specs.View.{view, leaving};

use crate::call::Call;
use crate::done::Done;
use crate::error::SheetError;
use crate::replayed::Replayed;
use crate::sheet::Sheet;
use book::book::Book;
use std::alloc::{AllocError, Global};

impl<'b, B: Book> Sheet<'b, B> {
    // Makes the call.
    pub(crate) fn perform(&mut self, call: Call<'_>) -> Result<Done, SheetError>
        ensures { (result, view B.meaning self.new) ≡ leaving (λ R s. calling R s (call_of call.entry)) (view B.meaning self.old) }
    {
        match call {
            Call::Open(literals) => self.open(literals).map(|_| Done::Opened),
            Call::Enter(proposal) => self.enter(proposal).map(|_| Done::Entered),
            Call::Strike(atom) => self.strike(atom).map(Done::Struck),
            Call::Complete => self.complete().map(Done::Completed),
        }
    }
}

// Performs the calls, whatever each answers, on a new sheet over the book.
pub fn replay<'b, B: Book>(
    heap: Global,
    book: &'b B,
    calls: &[Call<'_>],
) -> Result<Replayed<'b, B>, AllocError>
    ensures right { IfOk result (λ o. Right (B.meaning book.now) (calls_of calls.now) o.answers.items (view B.meaning o.sheet).state) }
    ensures same { IfOk result (λ o. (view B.meaning o.sheet).rules ≡ B.meaning book.now) }
    ensures known { KnownRunsAreRight }
{
    let mut sheet = Sheet::new(heap, book)?;
    let mut answers = Vec::with_capacity(heap, calls.len())?;
    for call in calls {
        answers.push_reserved(sheet.perform(*call));
    }
    Ok(Replayed { answers, sheet })
}
