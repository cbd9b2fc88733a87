// What is wrong with a program text, or with the lists and buffers it is to go into. A place is the offset of a byte.
#[derive(Clone, Copy, Debug, PartialEq, Eq)]
pub enum TextError {
    // the text does not begin with the heading
    WrongHeading,
    // a number, a separator, a type or a count that the format does not have, or bytes after the end
    Malformed(u32),
    // a statement or a body that the format has and we do not read
    Unsupported(u32),
    // a plain rule with more than one head atom
    DisjunctiveHead(u32),
    // an atom below 1 or above the greatest there can be
    UnknownAtom(u32),
    // more bytes, integers, rules, atoms or literals than there may be
    OverLimit(u32),
    // the text ends within a statement, or before the closing line
    UnexpectedEnd(u32),
    // a list or a buffer has too little room
    TooShort,
}
