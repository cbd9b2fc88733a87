// How many bytes pieces have together.
ghost use Rattle.std.specs.Prelude.{◌≤◌};

use crate::short::TooShort;
use crate::sink::Sink;

// So many bytes, of at most so many.
#[derive(Clone, Copy, Debug, PartialEq, Eq)]
pub struct Tally {
    pub size: usize,
    pub most: usize,
    ghost inside: { size ≤ most },
}

impl Tally {
    ghost use Rattle.std.specs.Prelude.{◌≡◌, ◌+◌, if◌then◌else◌, Ok, Err, IfOk, nat_le};
    ghost use Rattle.base.specs.Tallies.{MoreBy};

    fn add(&mut self, count: usize) -> Result<(), TooShort>
        ensures result { result ≡ (if nat_le (self.old.size + count) self.old.most then Ok tt else Err (record {})) }
        ensures more { IfOk result (λ _. MoreBy count self.old self.new) }
    {
        if self.most - self.size < count {
            return Err(TooShort);
        }
        self.size += count;
        Ok(())
    }
}

impl Sink for Tally {
    ghost use Rattle.base.specs.Tallies.{within, counted};
    ghost use Rattle.base.specs.TalliesLawful.{tally_laws};

    ghost fits = { within };

    ghost after = { counted };

    ghost laws = { tally_laws };

    fn put(&mut self, bytes: &[u8]) -> Result<(), TooShort> {
        self.add(bytes.len())
    }
}
