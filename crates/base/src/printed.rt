// What has a text: how long the text is, and the text at the front of a buffer. The standard library's `Display` does not say
// how long its text is. Buffers are the caller's, and the size is answered: below the programs only a sheet asks for memory.
ghost use Rattle.std.specs.Prelude.{◌≡◌, ℕ, List, length};
ghost use Rattle.base.specs.Printed.{size_within, front_answer, front_into};
ghost use Rattle.base.specs.Sinks.{Takes};

use crate::pen::Pen;
use crate::short::TooShort;
use crate::sink::Sink;
use crate::tally::Tally;

pub trait Printed {
    ghost text: { Self → List ℕ };

    // The text, piece by piece.
    fn print<S: Sink>(&self, sink: &mut S) -> Result<(), TooShort>
        ensures { Takes S.fits S.after sink.old (text self.now) result sink.new };
}

// How many bytes the text has, if they are at most so many.
pub fn printed_size<P: Printed>(piece: &P, most: usize) -> Option<usize>
    ensures { result ≡ size_within (P.text piece.now) most }
{
    let mut tally = Tally { size: 0, most };
    piece.print(&mut tally).ok()?;
    Some(tally.size)
}

// The text from the front of the buffer on or, where it does not fit, nothing; answers how many bytes.
pub fn print_front<P: Printed>(piece: &P, out: &mut [u8]) -> Result<usize, TooShort>
    ensures result { result ≡ front_answer (P.text piece.now) (length out.old) }
    ensures buffer { out.new ≡ front_into (P.text piece.now) out.old }
{
    let size = printed_size(piece, out.len()).ok_or(TooShort)?;
    let mut pen = Pen { out, at: 0 };
    piece.print(&mut pen)?;
    Ok(size)
}
