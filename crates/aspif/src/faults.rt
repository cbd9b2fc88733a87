// The number and the places by which a refusal of texts is told.
ghost use Rattle.std.specs.Prelude.{◌≡◌};
ghost use Rattle.aspif.specs.Faults.{refusal_of};
ghost use Rattle.aspif.specs.declared.error.TextError.TheVariants.{TooShort as TextTooShort};

use crate::error::TextError;
use base::refusal::Refusal;
use base::short::TooShort;

impl From<TextError> for Refusal {
    ghost from_gives = { λ e r. r ≡ refusal_of e };

    fn from(error: TextError) -> Refusal {
        let (number, first) = match error {
            TextError::WrongHeading => (1, 0),
            TextError::Malformed(at) => (2, at),
            TextError::Unsupported(at) => (3, at),
            TextError::DisjunctiveHead(at) => (4, at),
            TextError::UnknownAtom(at) => (5, at),
            TextError::OverLimit(at) => (6, at),
            TextError::UnexpectedEnd(at) => (7, at),
            TextError::TooShort => (17, 0),
        };
        Refusal {
            number,
            first,
            second: 0,
        }
    }
}

// Written out, since a clause says which error it becomes.
impl From<TooShort> for TextError {
    ghost from_gives = { λ _ e. e ≡ TextTooShort };

    fn from(_short: TooShort) -> Self {
        Self::TooShort
    }
}
