// Any book as a program text, in the caller's buffer.
ghost use Rattle.std.specs.Prelude.{◌≡◌, length};
ghost use Rattle.aspif.specs.Write.{write_answer, write_into};

use crate::error::TextError;
use crate::integers::all_integers;
use crate::puts::ProgramText;
use base::printed::{print_front, printed_size};
use book::book::Book;

// Fills the buffer from the front with the book's rules as a text, and answers how many bytes it has.
pub fn write<B: Book>(book: &B, out: &mut [u8]) -> Result<usize, TextError>
    ensures result { result ≡ write_answer (B.meaning book.now) (length out.old) }
    ensures buffer { out.new ≡ write_into (B.meaning book.now) out.old }
{
    let text = ProgramText { book };
    if printed_size(&text, 65_536).is_none() || all_integers(book) > 16_384 {
        return Err(TextError::OverLimit(0));
    }
    Ok(print_front(&text, out)?)
}
