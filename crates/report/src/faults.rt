// What a fault is told by, and how those of each layer become one.
ghost use Rattle.std.specs.Prelude.{◌≡◌};
ghost use Rattle.report.specs.Faults.{refusal_of, layer_of};
ghost use Rattle.report.specs.declared.fault.Fault.TheVariants.{Text as FaultText, Book as FaultBook, Sheet as FaultSheet};
ghost use Rattle.sheet.specs.declared.error.SheetError.TheVariants.{TooShort as SheetTooShort};

use crate::fault::{Fault, Layer};
use aspif::error::TextError;
use base::refusal::Refusal;
use base::short::TooShort;
use book::error::BookError;
use sheet::error::SheetError;

impl Fault {
    pub fn layer(&self) -> Layer
        ensures { result ≡ layer_of self.now }
    {
        match self {
            Fault::Text(_) => Layer::Text,
            Fault::Book(_) => Layer::Book,
            Fault::Sheet(_) => Layer::Sheet,
        }
    }
}

impl From<Fault> for Refusal {
    ghost from_gives = { λ f r. r ≡ refusal_of f };

    fn from(fault: Fault) -> Refusal {
        match fault {
            Fault::Text(e) => e.into(),
            Fault::Book(e) => e.into(),
            Fault::Sheet(e) => e.into(),
        }
    }
}

// Written out, since clauses say which fault a refusal becomes.
impl From<TextError> for Fault {
    ghost from_gives = { λ e f. f ≡ FaultText e };

    fn from(e: TextError) -> Self {
        Self::Text(e)
    }
}

impl From<BookError> for Fault {
    ghost from_gives = { λ e f. f ≡ FaultBook e };

    fn from(e: BookError) -> Self {
        Self::Book(e)
    }
}

impl From<SheetError> for Fault {
    ghost from_gives = { λ e f. f ≡ FaultSheet e };

    fn from(e: SheetError) -> Self {
        Self::Sheet(e)
    }
}

// A line of ours that does not fit its buffer.
impl From<TooShort> for Fault {
    ghost from_gives = { λ _ f. f ≡ FaultSheet SheetTooShort };

    fn from(_short: TooShort) -> Self {
        Self::Sheet(SheetError::TooShort)
    }
}
