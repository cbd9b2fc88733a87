// The integers of the rules of any book.
ghost use Rattle.std.specs.Prelude.{◌≡◌, length};
ghost use Rattle.book.specs.Encoding.{encode};

use crate::rules::RuleOf;
use book::book::Book;

// How many integers all rules have.
pub(crate) fn all_integers<B: Book>(book: &B) -> usize
    ensures { result ≡ length (encode (B.meaning book.now).rules) }
{
    (0..book.rules())
        .map(|rule| RuleOf { book, rule }.size() as usize)
        .sum()
}
