// The text of a book, rule by rule.
ghost use Rattle.base.specs.Sinks.{Takes};
ghost use Rattle.aspif.specs.Texts.{rule_lines, text_of};

use crate::rules::RuleOf;
use base::printed::Printed;
use base::short::TooShort;
use base::sink::Sink;
use book::book::Book;

fn put_lines<S: Sink, B: Book>(sink: &mut S, book: &B) -> Result<(), TooShort>
    ensures { Takes S.fits S.after sink.old (rule_lines (B.meaning book.now).rules) result sink.new }
{
    for rule in 0..book.rules() {
        RuleOf { book, rule }.print(sink)?;
    }
    Ok(())
}

// The text of a book: a heading, a line for each rule, and a closing line.
#[derive(Clone, Copy)]
pub(crate) struct ProgramText<'b, B: Book> {
    pub book: &'b B,
}

impl<'b, B: Book> Printed for ProgramText<'b, B> {
    ghost text = { λ t. text_of (B.Book.meaning t.book.now) };

    fn print<S: Sink>(&self, sink: &mut S) -> Result<(), TooShort> {
        sink.put(b"asp 1 0 0\n")?;
        put_lines(sink, self.book)?;
        sink.put(b"0\n")
    }
}
