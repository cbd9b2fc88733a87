// The number and the places by which a refusal of lists is told.
ghost use Rattle.book.specs.Faults.{refusal_of};
ghost use Rattle.std.specs.Prelude.{◌≡◌};

use crate::error::BookError;
use base::refusal::Refusal;

impl From<BookError> for Refusal {
    ghost from_gives = { λ e r. r ≡ refusal_of e };

    fn from(error: BookError) -> Refusal {
        let first = match error {
            BookError::TooManyAtoms => 0,
            BookError::FaultyRule(place) => place,
            BookError::FaultyRest(rules) => rules,
        };
        Refusal {
            number: 8,
            first,
            second: 0,
        }
    }
}
