use crate::done::Done;
use crate::error::SheetError;
use crate::sheet::Sheet;
use book::book::Book;

// What a list of calls on a new sheet answered, one answer for each call, and the sheet that they left.
#[derive(Drop)]
pub struct Replayed<'b, B: Book> {
    pub answers: Vec<Result<Done, SheetError>>,
    pub sheet: Sheet<'b, B>,
}
