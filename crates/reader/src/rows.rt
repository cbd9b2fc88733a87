// Counts, and rows of numbers.
ghost use Rattle.std.specs.Prelude.{◌≡◌};
ghost use Rattle.reader.specs.Cursors.{Reads};
ghost use Rattle.reader.specs.Fields.{field_to};
ghost use Rattle.reader.specs.Rows.{after_count, count_limit, count_fault, counted_to, count_at, allowed, after_item, item_at, row_at, row_end};

use crate::cursor::Cursor;
use crate::pieces::{After, Count, Items};
use aspif::error::TextError;
use book::kind::Kind;

impl Count {
    // What has to stand after a count.
    fn after(self) -> After
        ensures { result ≡ after_count self }
    {
        match self {
            Count::Heads(_) | Count::Name => After::Space,
            Count::Literals | Count::Assumed => After::ByCount,
        }
    }

    // The greatest count.
    fn limit(self) -> u32
        ensures { result ≡ count_limit self }
    {
        match self {
            Count::Heads(kind) => kind.head_limit(),
            Count::Name | Count::Literals => 255,
            Count::Assumed => 999_999_999,
        }
    }

    // The refusal of a greater one.
    fn fault(self, at: u32) -> TextError
        ensures { result ≡ count_fault self at }
    {
        match self {
            Count::Heads(Kind::Plain) => TextError::DisjunctiveHead(at),
            _ => TextError::OverLimit(at),
        }
    }
}

impl Items {
    // What has to stand after a number with so many more behind it.
    fn after(self, more: u32) -> After
        ensures { result ≡ after_item self more }
    {
        match self {
            Items::Literals if more == 0 => After::Newline,
            _ => After::Space,
        }
    }

    // Whether a number may stand in a row.
    fn allows(self, number: i32) -> bool
        ensures { result ≡ allowed self number }
    {
        match self {
            Items::Heads => (1..=1024).contains(&number),
            Items::Literals => (1..=1024).contains(&number.unsigned_abs()),
        }
    }
}

impl Cursor<'_> {
    // A count, up to its limit. What a line says is told apart by a `match` with ranges and guards throughout.
    #[tactic(auto, unfolding(crate::specs::Rows::count_at))]
    pub(crate) fn count(&mut self, count: Count) -> Result<u32, TextError>
        ensures { Reads counted_to (count_at count) self.old result self.new }
    {
        let at = self.offset();
        match self.field(count.after())? {
            i32::MIN..=-1 => Err(TextError::Malformed(at)),
            n if n.unsigned_abs() > count.limit() => Err(count.fault(at)),
            n => Ok(n.unsigned_abs()),
        }
    }

    // A number of a row, with so many more behind it.
    #[tactic(auto, unfolding(crate::specs::Rows::item_at))]
    pub(crate) fn item(&mut self, items: Items, more: u32) -> Result<i32, TextError>
        ensures { Reads (field_to self.old.text.now) (item_at items more) self.old result self.new }
    {
        let at = self.offset();
        let number = self.field(items.after(more))?;
        if !items.allows(number) {
            return Err(TextError::UnknownAtom(at));
        }
        Ok(number)
    }

    // A row of so many numbers.
    #[tactic(auto, using(crate::proofs::Steps::row_steps))]
    pub(crate) fn row(&mut self, items: Items, count: u32) -> Result<(), TextError>
        ensures { Reads (λ _ next. next) (λ text at. row_end (row_at items count text at)) self.old result self.new }
    {
        for more in (0..count).rev() {
            self.item(items, more)?;
        }
        Ok(())
    }
}
