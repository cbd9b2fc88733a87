use aspif::error::TextError;
use book::error::BookError;
use sheet::error::SheetError;

// Which part of the work a refusal comes from.
#[derive(Clone, Copy, Debug, PartialEq, Eq)]
pub enum Layer {
    Text,
    Book,
    Sheet,
}

// A refusal of any layer, as that layer gave it.
#[derive(Clone, Copy, Debug, PartialEq, Eq)]
pub enum Fault {
    Text(TextError),
    Book(BookError),
    Sheet(SheetError),
}
