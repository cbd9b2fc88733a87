use book::kind::Kind;

// Which byte has to stand after a number: a space, a newline, what the number as a count asks for (a newline after 0,
// else a space), or what it asks for as the kind of a statement.
#[derive(Clone, Copy)]
pub enum After {
    Space,
    Newline,
    ByCount,
    ByKind,
}

// What a row of numbers stands for: the atoms of a head, or the literals that end a line.
#[derive(Clone, Copy)]
pub enum Items {
    Heads,
    Literals,
}

// What a count counts: head atoms, the bytes of a name, the literals of a body or an output, or assumed literals.
#[derive(Clone, Copy)]
pub enum Count {
    Heads(Kind),
    Name,
    Literals,
    Assumed,
}

// What was read: the greatest atom, and how many rules, rule integers and assumed literals.
#[derive(Clone, Copy, Debug, Default, PartialEq, Eq)]
pub struct Counts {
    pub atoms: u32,
    pub rules: usize,
    pub integers: usize,
    pub assumed: usize,
}
