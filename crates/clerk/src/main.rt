// Plays one invoice from the first call to the last, and prints each call with its answer, and then the sheet.
#![tactic(auto)]

use base::refusal::Refusal;
use book::book::{Book, NamedBook};
use numbers::lists::{Names, RuleLists};
use numbers::numbers::NumbersBook;
use sheet::call::Call;
use sheet::done::Done;
use sheet::error::SheetError;
use sheet::mark::Mark;
use sheet::proposal::{Proposal, Reason};
use sheet::replays::replay;
use sheet::sheet::Sheet;

const RULES: [i32; 30] = [
    0, 1, 1, 0, 0, // 0: delivered
    0, 1, 2, 0, 2, 1, -3, // 1: released if delivered and not held
    0, 1, 3, 0, 1, -2, // 2: held if not released
    1, 1, 4, 0, 1, 1, // 3: what was delivered may be queried
    0, 0, 0, 2, 2, 4, // 4: never both released and queried
];

const STARTS: [u32; 5] = [0, 5, 12, 18, 24];

const NAMES: &[u8] = b"delivered release hold query";

const NAME_STARTS: [u32; 4] = [0, 10, 18, 23];

const NAME_LENGTHS: [u32; 4] = [9, 7, 4, 5];

// What came out: delivered and released; that it is not held is assumed.
const ANSWER: [i32; 3] = [1, 2, -3];

fn invoice() -> NumbersBook<'static> {
    let names = Names {
        text: NAMES,
        starts: &NAME_STARTS,
        lengths: &NAME_LENGTHS,
    };
    NumbersBook::new(RuleLists {
        atoms: 4,
        integers: &RULES,
        starts: &STARTS,
        names,
    })
}

fn because(atom: u32, reason: Reason) -> Call<'static> {
    Call::Enter(Proposal { atom, reason })
}

fn name<'a>(book: &'a NumbersBook<'_>, atom: u32) -> &'a str {
    book.name(atom)
        .and_then(|bytes| str::from_utf8(bytes).ok())
        .unwrap_or("?")
}

fn print_reason(rt: &HostRuntime, reason: Reason) -> anyhow::Result<()> {
    match reason {
        Reason::Support(rule) => print!(rt; "supported by rule {rule}")?,
        Reason::Lack => print!(rt; "lacks support")?,
        Reason::Required(rule) => print!(rt; "required to falsify the body of rule {rule}")?,
    }
    Ok(())
}

fn print_literals(
    rt: &HostRuntime,
    book: &NumbersBook<'_>,
    literals: &[i32],
) -> anyhow::Result<()> {
    if literals.is_empty() {
        print!(rt; "open with nothing")?;
    }
    let mut before = "open with ";
    for literal in literals {
        let sign = if *literal < 0 { "not " } else { "" };
        let atom = name(book, literal.unsigned_abs());
        print!(rt; "{before}{sign}{atom}")?;
        before = ", ";
    }
    Ok(())
}

fn print_call(rt: &HostRuntime, book: &NumbersBook<'_>, call: Call<'_>) -> anyhow::Result<()> {
    match call {
        Call::Open(literals) => print_literals(rt, book, literals)?,
        Call::Enter(proposal) => {
            let atom = name(book, proposal.atom);
            print!(rt; "{atom}, ")?;
            print_reason(rt, proposal.reason)?;
        }
        Call::Strike(atom) => {
            let atom = name(book, atom);
            print!(rt; "strike {atom}")?;
        }
        Call::Complete => print!(rt; "complete")?,
    }
    Ok(())
}

// What a refusal of a sheet says, in words.
fn words(error: SheetError) -> &'static str {
    match error {
        SheetError::UnknownAtom(_) => "no such atom",
        SheetError::WrongState => "the sheet is not open, or is open already",
        SheetError::DuplicateAtom(_) => "an atom stands twice in the list",
        SheetError::ViolatedRule(_) => "a rule is broken under this answer",
        SheetError::AlreadyMarked => "it is marked already",
        SheetError::WrongSide => "this reason is for the other side of the answer",
        SheetError::UnsuitableRule(_) => "this rule gives no such reason",
        SheetError::MissingGround(_, _) => "a ground has no reason yet, or speaks against it",
        SheetError::NoEntry => "it has no entry",
        SheetError::TooShort => "there is too little room",
    }
}

fn print_answer(rt: &HostRuntime, answer: Result<Done, SheetError>) -> anyhow::Result<()> {
    match answer {
        Ok(Done::Opened) => println!(rt; ": open")?,
        Ok(Done::Entered) => println!(rt; ": entered")?,
        Ok(Done::Struck(entries)) => println!(rt; ": {entries} taken off")?,
        Ok(Done::Completed(atoms)) => println!(rt; ": {atoms} left open")?,
        Err(error) => {
            let refusal = Refusal::from(error);
            let (number, first, second) = (refusal.number, refusal.first, refusal.second);
            let words = words(error);
            println!(rt; ": refusal {number} sheet {first} {second}, {words}")?;
        }
    }
    Ok(())
}

fn print_entry(rt: &HostRuntime, book: &NumbersBook<'_>, entry: Proposal) -> anyhow::Result<()> {
    let atom = name(book, entry.atom);
    let truth = if Mark::from(entry.reason) == Mark::True {
        "true"
    } else {
        "false"
    };
    print!(rt; "{atom} is {truth}: ")?;
    print_reason(rt, entry.reason)?;
    println!(rt; "")?;
    Ok(())
}

// Whether the atom is marked false without an entry.
fn is_assumed(sheet: &Sheet<'_, NumbersBook<'_>>, atoms: u32, atom: u32) -> bool {
    let entered = (0..atoms)
        .filter_map(|at| sheet.entry(at))
        .any(|entry| entry.atom == atom);
    sheet.mark(atom) == Some(Mark::False) && !entered
}

// The assumed atoms, the entries in their order, and the atoms that have no mark.
fn print_sheet(
    rt: &HostRuntime,
    book: &NumbersBook<'_>,
    sheet: &Sheet<'_, NumbersBook<'_>>,
) -> anyhow::Result<()> {
    let atoms = book.atoms();
    for atom in (1..=atoms).filter(|atom| is_assumed(sheet, atoms, *atom)) {
        let atom = name(book, atom);
        println!(rt; "{atom} is false: assumed")?;
    }
    for entry in (0..atoms).filter_map(|at| sheet.entry(at)) {
        print_entry(rt, book, entry)?;
    }
    for atom in (1..=atoms).filter(|atom| sheet.mark(*atom) == Some(Mark::Unmarked)) {
        let atom = name(book, atom);
        println!(rt; "{atom} is left open")?;
    }
    Ok(())
}

fn run(rt: &HostRuntime) -> anyhow::Result<()> {
    let book = invoice();
    let calls = [
        because(1, Reason::Support(0)),
        Call::Open(&ANSWER),
        because(2, Reason::Support(1)),
        because(1, Reason::Support(0)),
        because(2, Reason::Support(1)),
        because(4, Reason::Support(3)),
        because(4, Reason::Lack),
        Call::Strike(1),
        Call::Complete,
    ];
    let replayed = replay(rt.alloc(), &book, &calls)?;
    for (call, answer) in calls.iter().zip(replayed.answers.as_slice()) {
        print_call(rt, &book, *call)?;
        print_answer(rt, *answer)?;
    }
    println!(rt; "")?;
    print_sheet(rt, &book, &replayed.sheet)
}

fn main(rt: HostRuntime) -> anyhow::Result<()> {
    run(&rt)
}
