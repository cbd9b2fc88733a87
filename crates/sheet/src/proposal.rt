// A reason that an atom is true or false under the answer.
#[derive(Clone, Copy, Debug, PartialEq, Eq)]
pub enum Reason {
    // true: this rule has the atom in its head, and its body holds
    Support(u32),
    // false: every rule with the atom in its head has a literal that fails
    Lack,
    // false: it has to falsify the body of this constraint, where all the rest holds
    Required(u32),
}

// An atom and a reason for it. One that was taken is an entry of the sheet.
#[derive(Clone, Copy, Debug, PartialEq, Eq)]
pub struct Proposal {
    pub atom: u32,
    pub reason: Reason,
}
