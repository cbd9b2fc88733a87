// What is wrong with a call on a sheet.
#[derive(Clone, Copy, Debug, PartialEq, Eq)]
pub enum SheetError {
    // an atom 0 or above those of the book; in a list, at this position
    UnknownAtom(u32),
    // open on an open sheet, or another call on one that is not open
    WrongState,
    // an atom that stands earlier in the list, with either sign, at this position
    DuplicateAtom(u32),
    // a rule whose body is true under the answer while none of its head atoms is
    ViolatedRule(u32),
    // the atom is marked already
    AlreadyMarked,
    // support for an atom outside the answer, or another reason for one inside it
    WrongSide,
    // no rule at this place, or one that cannot give this reason for this atom
    UnsuitableRule(u32),
    // a rule, and the first position of its body that lacks a ground
    MissingGround(u32, u32),
    // the atom has no entry
    NoEntry,
    // a buffer has too little room
    TooShort,
}
