// Whether a proposal is allowed, and if not why.
ghost use Rattle.std.specs.Prelude.{◌≡◌, ℕ, is_ok};
ghost use Rattle.base.specs.Closures.{Computes};
ghost use Rattle.sheet.specs.declared.error.SheetError.{SheetError};
ghost use Rattle.sheet.specs.declared.proposal.Reason.TheVariants.{Support as BySupport, Lack as ByLack, Required as ByRequired};
ghost use Rattle.sheet.specs.Judges.{reason_judged, judged};
ghost use Rattle.sheet.specs.Verdicts.{unless_at};

use crate::error::SheetError;
use crate::mark::Mark;
use crate::proposal::{Proposal, Reason};
use crate::tests::{is_atom, is_positive, is_unmarked};
use book::book::Book;

// What a proposal is judged by: the book, the answer, and what is marked so far.
#[derive(Drop)]
pub(crate) struct Judge<'a, B: Book> {
    pub(crate) book: &'a B,
    pub(crate) answer: &'a [bool],
    pub(crate) marks: &'a [Mark],
}

// The refusal at the place, if there is one.
fn unless_at<F: Fn(u32) -> SheetError>(place: Option<u32>, refusal: F) -> Result<(), SheetError>
    requires { F.IsAlwaysCallable refusal }
    ensures { (told : ℕ → SheetError) → Computes (F.post refusal) told → result ≡ unless_at place told }
{
    place.map_or(Ok(()), |at| Err(refusal(at)))
}

impl<'a, B: Book> Judge<'a, B> {
    #[tactic(auto, unfolding(crate::specs::Judges::some_head))]
    fn support_verdict(&self, atom: u32, rule: u32) -> Result<(), SheetError>
        ensures { result ≡ reason_judged B.meaning self.now atom (BySupport rule) }
    {
        if !self.is_in_answer(atom) {
            return Err(SheetError::WrongSide);
        }
        if !self.is_in_head(atom, rule) {
            return Err(SheetError::UnsuitableRule(rule));
        }
        let missing = self.first_unmet(rule, |literal| self.holds(literal));
        unless_at(missing, |at| SheetError::MissingGround(rule, at))
    }

    fn lack_verdict(&self, atom: u32) -> Result<(), SheetError>
        ensures { result ≡ reason_judged B.meaning self.now atom ByLack }
    {
        if self.is_in_answer(atom) {
            return Err(SheetError::WrongSide);
        }
        let unfailing = self.first_unfailing(atom);
        unless_at(unfailing, |rule| SheetError::MissingGround(rule, 0))
    }

    fn required_verdict(&self, atom: u32, rule: u32) -> Result<(), SheetError>
        ensures { result ≡ reason_judged B.meaning self.now atom (ByRequired rule) }
    {
        if self.is_in_answer(atom) {
            return Err(SheetError::WrongSide);
        }
        if !self.can_require(atom, rule) {
            return Err(SheetError::UnsuitableRule(rule));
        }
        let test = |literal| is_positive(atom, literal) || self.holds(literal);
        let missing = self.first_unmet(rule, test);
        unless_at(missing, |at| SheetError::MissingGround(rule, at))
    }

    fn reason_verdict(&self, atom: u32, reason: Reason) -> Result<(), SheetError>
        ensures { result ≡ reason_judged B.meaning self.now atom reason }
    {
        match reason {
            Reason::Support(rule) => self.support_verdict(atom, rule),
            Reason::Lack => self.lack_verdict(atom),
            Reason::Required(rule) => self.required_verdict(atom, rule),
        }
    }

    #[tactic(auto, unfolding(crate::specs::Verdicts::verdict))]
    pub(crate) fn verdict(&self, proposal: Proposal) -> Result<(), SheetError>
        ensures { result ≡ judged B.meaning self.now proposal }
    {
        if !is_atom(self.book.atoms(), proposal.atom) {
            return Err(SheetError::UnknownAtom(0));
        }
        if !is_unmarked(self.marks, proposal.atom) {
            return Err(SheetError::AlreadyMarked);
        }
        self.reason_verdict(proposal.atom, proposal.reason)
    }

    pub(crate) fn allows(&self, proposal: Proposal) -> bool
        ensures { result ≡ is_ok (judged B.meaning self.now proposal) }
    {
        self.verdict(proposal).is_ok()
    }
}
