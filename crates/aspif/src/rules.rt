// One rule of a book, as its line in a text.
ghost use Rattle.std.specs.Prelude.{◌≡◌, ◌≤◌, ℤ, List, ◌∷◌, length, pos};
ghost use Rattle.std.specs.List.{slice_get};
ghost use Rattle.base.specs.Closures.{Computes};
ghost use Rattle.base.specs.Sinks.{Takes};
ghost use Rattle.aspif.specs.Texts.{spaced};
ghost use Rattle.aspif.specs.Integers.{encode_in, heads_in, literals_in, head_in, body_in, line_in, rule_of};

use base::printed::Printed;
use base::short::TooShort;
use base::sink::Sink;
use book::book::Book;

// So many numbers, each known by its place, as a book answers. (A `for` over `filter_map` was tried: in a function that is
// generic over the closure, what the check makes of such a loop is refused.)
fn put_each<S: Sink, F: Fn(u32) -> Option<i64>>(
    sink: &mut S,
    count: u32,
    number: F,
) -> Result<(), TooShort>
    requires { F.IsAlwaysCallable number }
    ensures { (zs : List ℤ) → length zs ≡ count → Computes (F.post number) (slice_get zs) → Takes S.fits S.after sink.old (spaced zs) result sink.new }
{
    for at in 0..count {
        if let Some(n) = number(at) {
            sink.put_spaced(n)?;
        }
    }
    Ok(())
}

// A type, a count, and so many numbers.
fn put_part<S: Sink, F: Fn(u32) -> Option<i64>>(
    sink: &mut S,
    kind: i32,
    count: u32,
    number: F,
) -> Result<(), TooShort>
    requires { F.IsAlwaysCallable number }
    ensures { (zs : List ℤ) → length zs ≡ count → Computes (F.post number) (slice_get zs) → Takes S.fits S.after sink.old (spaced (kind ∷ pos count ∷ zs)) result sink.new }
{
    sink.put_spaced(i64::from(kind))?;
    sink.put_spaced(i64::from(count))?;
    put_each(sink, count, number)
}

// A rule of a book by its place, where there may be none.
#[derive(Clone, Copy)]
pub(crate) struct RuleOf<'b, B: Book> {
    pub book: &'b B,
    pub rule: u32,
}

impl<'b, B: Book> RuleOf<'b, B> {
    // How many integers its line has after the 1.
    pub(crate) fn size(&self) -> u32
        ensures count { result ≡ length (encode_in (rule_of B.meaning self.now)) }
        ensures bound { result ≤ 514 }
    {
        match (
            self.book.head_size(self.rule),
            self.book.body_size(self.rule),
        ) {
            (Some(heads), Some(literals)) => 4 + heads + literals,
            _ => 0,
        }
    }

    // The head atom at a position.
    #[tactic(auto, using(crate::proofs::Lines::head_there))]
    fn head(&self, at: u32) -> Option<i64>
        ensures { result ≡ slice_get (heads_in (rule_of B.meaning self.now)) at }
    {
        self.book.head(self.rule, at).map(i64::from)
    }

    // The literal of the body at a position.
    #[tactic(auto, using(crate::proofs::Lines::literal_there))]
    fn literal(&self, at: u32) -> Option<i64>
        ensures { result ≡ slice_get (literals_in (rule_of B.meaning self.now)) at }
    {
        self.book.literal(self.rule, at).map(i64::from)
    }

    fn put_head<S: Sink>(&self, sink: &mut S) -> Result<(), TooShort>
        ensures { Takes S.fits S.after sink.old (spaced (head_in (rule_of B.meaning self.now))) result sink.new }
    {
        let (Some(kind), Some(size)) = (self.book.kind(self.rule), self.book.head_size(self.rule))
        else {
            return Ok(());
        };
        put_part(sink, i32::from(kind), size, |at| self.head(at))
    }

    fn put_body<S: Sink>(&self, sink: &mut S) -> Result<(), TooShort>
        ensures { Takes S.fits S.after sink.old (spaced (body_in (rule_of B.meaning self.now))) result sink.new }
    {
        let Some(size) = self.book.body_size(self.rule) else {
            return Ok(());
        };
        put_part(sink, 0, size, |at| self.literal(at))
    }
}

impl<'b, B: Book> Printed for RuleOf<'b, B> {
    ghost text = { λ r. line_in (rule_of B.Book.meaning r) };

    fn print<S: Sink>(&self, sink: &mut S) -> Result<(), TooShort> {
        sink.put(b"1")?;
        self.put_head(sink)?;
        self.put_body(sink)?;
        sink.put(b"\n")
    }
}
