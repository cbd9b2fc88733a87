// What takes bytes piece by piece. The standard library's `Write` says of no writer how much it still takes, so a text
// could not be counted and put by the same code.
ghost use Rattle.std.specs.Prelude.{ℕ, Bool, List};
ghost use Rattle.std.specs.Fmt.{signed_decimal};
ghost use Rattle.base.specs.Sinks.{SinkLaws, Takes, after_space};

use crate::short::TooShort;
use itoa::Buffer;

pub trait Sink {
    // whether a piece fits, and what holds after it
    ghost fits: { Self → List ℕ → Bool };

    ghost after: { Self → List ℕ → Self → Type 0 };

    ghost laws: { SinkLaws fits after };

    // All of the bytes, where they fit.
    fn put(&mut self, bytes: &[u8]) -> Result<(), TooShort>
        ensures { Takes fits after self.old bytes.now result self.new };

    // A number in decimal.
    fn put_number(&mut self, n: i64) -> Result<(), TooShort>
        ensures { Takes fits after self.old (signed_decimal n) result self.new }
    {
        self.put(Buffer::new().format(n).as_bytes())
    }

    // A number in decimal, after a space.
    fn put_spaced(&mut self, n: i64) -> Result<(), TooShort>
        ensures { Takes fits after self.old (after_space n) result self.new }
    {
        self.put(b" ")?;
        self.put_number(n)
    }
}
