// The number and the places by which a refusal of a sheet is told.
ghost use Rattle.std.specs.Prelude.{◌≡◌};
ghost use Rattle.sheet.specs.Faults.{refusal_of};

use crate::error::SheetError;
use base::refusal::Refusal;

impl From<SheetError> for Refusal {
    ghost from_gives = { λ e r. r ≡ refusal_of e };

    fn from(error: SheetError) -> Refusal {
        let (number, first, second) = match error {
            SheetError::UnknownAtom(position) => (5, position, 0),
            SheetError::WrongState => (9, 0, 0),
            SheetError::DuplicateAtom(position) => (10, position, 0),
            SheetError::ViolatedRule(rule) => (11, rule, 0),
            SheetError::AlreadyMarked => (12, 0, 0),
            SheetError::WrongSide => (13, 0, 0),
            SheetError::UnsuitableRule(rule) => (14, rule, 0),
            SheetError::MissingGround(rule, position) => (15, rule, position),
            SheetError::NoEntry => (16, 0, 0),
            SheetError::TooShort => (17, 0, 0),
        };
        Refusal {
            number,
            first,
            second,
        }
    }
}
