// Lists of the caller's that a text is read into: the rules as integers and where each rule starts; for each atom where
// its name stands in the text and how many bytes it has, in two lists, as a book of lists takes them; the assumed literals.
#[derive(Drop)]
pub struct Lists<'a> {
    pub integers: &'a mut [i32],
    pub starts: &'a mut [u32],
    pub places: &'a mut [u32],
    pub lengths: &'a mut [u32],
    pub assumed: &'a mut [i32],
}
