// Sheets that are called. Each test makes what it needs, so that it can be read by itself.
use crate::books::{circle, invoice};
use numbers::numbers::NumbersBook;
use sheet::call::Call;
use sheet::done::Done;
use sheet::error::SheetError;
use sheet::mark::Mark;
use sheet::proposal::{Proposal, Reason};
use sheet::replays::replay;
use sheet::sheet::Sheet;
use std::test::Fail;

fn entry(atom: u32, reason: Reason) -> Option<Proposal> {
    Some(Proposal { atom, reason })
}

#[test]
fn an_invoice_is_explained(rt: HostRuntime) -> Result<(), Fail> {
    let book = NumbersBook::new(invoice());
    let mut sheet = Sheet::new(rt.alloc(), &book)?;
    assert_eq!(rt; sheet.open(&[1, 2, -3]), Ok(()));
    assert_eq!(rt; sheet.complete(), Ok(0));
    assert_eq!(rt; sheet.entry(0), entry(1, Reason::Support(0)));
    assert_eq!(rt; sheet.entry(1), entry(2, Reason::Support(1)));
    assert_eq!(rt; sheet.entry(2), entry(4, Reason::Required(4)));
    assert_eq!(rt; sheet.entry(3), None);
    assert_eq!(rt; sheet.mark(2), Some(Mark::True));
    assert_eq!(rt; sheet.mark(3), Some(Mark::False));
    assert_eq!(rt; sheet.mark(5), None);
    Ok(())
}

#[test]
fn what_rests_on_a_struck_entry_goes_with_it(rt: HostRuntime) -> Result<(), Fail> {
    let book = NumbersBook::new(invoice());
    let mut sheet = Sheet::new(rt.alloc(), &book)?;
    assert_eq!(rt; sheet.open(&[1, 2, -3]), Ok(()));
    assert_eq!(rt; sheet.complete(), Ok(0));
    assert_eq!(rt; sheet.strike(2), Ok(2));
    assert_eq!(rt; sheet.entry(0), entry(1, Reason::Support(0)));
    assert_eq!(rt; sheet.entry(1), None);
    assert_eq!(rt; sheet.mark(4), Some(Mark::Unmarked));
    Ok(())
}

#[test]
fn two_atoms_do_not_prop_each_other_up(rt: HostRuntime) -> Result<(), Fail> {
    let book = NumbersBook::new(circle());
    let mut sheet = Sheet::new(rt.alloc(), &book)?;
    assert_eq!(rt; sheet.open(&[1, 2]), Ok(()));
    assert_eq!(rt; sheet.complete(), Ok(2));
    assert_eq!(rt; sheet.entry(0), None);
    Ok(())
}

#[test]
fn calls_are_made_one_after_another(rt: HostRuntime) -> Result<(), Fail> {
    let book = NumbersBook::new(invoice());
    let early = Proposal {
        atom: 2,
        reason: Reason::Support(1),
    };
    let calls = [
        Call::Strike(1),
        Call::Open(&[1, 2, -3]),
        Call::Enter(early),
        Call::Complete,
    ];
    let replayed = replay(rt.alloc(), &book, &calls)?;
    let answers = [
        Err(SheetError::WrongState),
        Ok(Done::Opened),
        Err(SheetError::MissingGround(1, 0)),
        Ok(Done::Completed(0)),
    ];
    assert_eq!(rt; replayed.answers.as_slice(), answers.as_slice());
    assert_eq!(rt; replayed.sheet.entry(1), entry(2, Reason::Support(1)));
    Ok(())
}
