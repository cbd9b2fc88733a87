// What is wrong with lists that are to be made into a book.
#[derive(Clone, Copy, Debug, PartialEq, Eq)]
pub enum BookError {
    // more than 1,024 atoms
    TooManyAtoms,
    // the first rule or fact that breaks a limit, or does not start where the one before it ends
    FaultyRule(u32),
    // name lists that do not fit the atoms and the text, or integers after the last of so many rules
    FaultyRest(u32),
}
