// For each atom, from 1 on, where its name starts in the text and how many bytes it has; 0 bytes: the name is absent.
// They are two lists: the format of a book as lists says which ones a caller lends.
#[derive(Clone, Copy, Default)]
pub struct Names<'a> {
    pub text: &'a [u8],
    pub starts: &'a [u32],
    pub lengths: &'a [u32],
}

// Rules as numbers: the integers of all rules one after another, and where each rule starts among them.
#[derive(Clone, Copy, Default)]
pub struct RuleLists<'a> {
    pub atoms: u32,
    pub integers: &'a [i32],
    pub starts: &'a [u32],
    pub names: Names<'a>,
}
