// A fault as one line of text, in the caller's buffer.
ghost use Rattle.std.specs.Prelude.{◌≡◌, length};
ghost use Rattle.base.specs.Sinks.{Takes};
ghost use Rattle.report.specs.Told.{number, places_of, word, told, tell_answer, tell_into};

use crate::fault::{Fault, Layer};
use base::printed::{Printed, print_front};
use base::refusal::Refusal;
use base::short::TooShort;
use base::sink::Sink;

impl Printed for Layer {
    ghost text = { word };

    #[tactic(auto, unfolding(crate::specs::Told::word))]
    fn print<S: Sink>(&self, sink: &mut S) -> Result<(), TooShort> {
        match self {
            Layer::Text => sink.put(b" text"),
            Layer::Book => sink.put(b" book"),
            Layer::Sheet => sink.put(b" sheet"),
        }
    }
}

#[tactic(auto, unfolding(crate::specs::Told::number))]
fn put_numeral<S: Sink>(sink: &mut S, n: u32) -> Result<(), TooShort>
    ensures { Takes S.fits S.after sink.old (number n) result sink.new }
{
    sink.put_spaced(i64::from(n))
}

// Both places and the newline.
fn put_places<S: Sink>(sink: &mut S, first: u32, second: u32) -> Result<(), TooShort>
    ensures { Takes S.fits S.after sink.old (places_of first second) result sink.new }
{
    put_numeral(sink, first)?;
    put_numeral(sink, second)?;
    sink.put(b"\n")
}

impl Printed for Fault {
    ghost text = { told };

    fn print<S: Sink>(&self, sink: &mut S) -> Result<(), TooShort> {
        let refusal = Refusal::from(*self);
        sink.put(b"refusal")?;
        put_numeral(sink, u32::from(refusal.number))?;
        self.layer().print(sink)?;
        put_places(sink, refusal.first, refusal.second)
    }
}

// Fills the buffer from the front with the line that tells the fault, and answers how many bytes it has.
pub fn tell(fault: &Fault, out: &mut [u8]) -> Result<usize, Fault>
    ensures result { result ≡ tell_answer fault.now (length out.old) }
    ensures buffer { out.new ≡ tell_into fault.now out.old }
{
    Ok(print_front(fault, out)?)
}
