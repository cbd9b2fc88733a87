// Numbers in decimal, and items as they are, put at a place of a list of the caller's: for whoever has a list and no pen.
ghost use Rattle.std.specs.Prelude.{◌≡◌, ◌≤◌, length};
ghost use Rattle.base.specs.Puts.{put_answer, put_into};
ghost use Rattle.std.specs.Fmt.{signed_decimal};

use crate::short::TooShort;
use itoa::Buffer;

// How many bytes a number has in decimal.
pub fn number_size(n: i64) -> usize
    ensures size { result ≡ length (signed_decimal n) }
    ensures bound { result ≤ 21 }
{
    Buffer::new().format(n).len()
}

// A number in decimal, at a place of the buffer; answers how many bytes.
pub fn put_number(out: &mut [u8], at: usize, n: i64) -> Result<usize, TooShort>
    ensures result { result ≡ put_answer (length out.old) at (signed_decimal n) }
    ensures list { out.new ≡ put_into out.old at (signed_decimal n) }
{
    put_items(out, at, Buffer::new().format(n).as_bytes())
}

// Items at a place of a list; answers how many.
pub fn put_items<T: Copy>(out: &mut [T], at: usize, items: &[T]) -> Result<usize, TooShort>
    ensures result { result ≡ put_answer (length out.old) at items.now }
    ensures list { out.new ≡ put_into out.old at items.now }
{
    let count = items.len();
    if at > out.len() || out.len() - at < count {
        return Err(TooShort);
    }
    out[at..at + count].copy_from_slice(items);
    Ok(count)
}
