// The mark of an atom, and the one that a reason gives it.
ghost use Rattle.std.specs.Prelude.{◌≡◌};
ghost use Rattle.sheet.specs.Marks.{claim, mark_for};

use crate::proposal::Reason;

// What a sheet says of an atom so far. The three have names: an optional truth would read as a missing one.
#[derive(Clone, Copy, Debug, PartialEq, Eq)]
pub enum Mark {
    Unmarked,
    True,
    False,
}

impl From<Reason> for Mark {
    ghost from_gives = { λ reason m. m ≡ mark_for (claim reason) };

    fn from(reason: Reason) -> Mark {
        match reason {
            Reason::Support(_) => Mark::True,
            Reason::Lack | Reason::Required(_) => Mark::False,
        }
    }
}
