// Numbers of a text, one after another.
ghost use Rattle.std.specs.Iterator.{YieldsFirst, item_count};
ghost use Rattle.reader.specs.Seen.{numbers_in};

use crate::statement::Numbers;

// The values of numbers that were read before.
#[derive(Drop)]
pub(crate) struct Values<'a> {
    pub(crate) rest: Numbers<'a>,
}

impl<'a> Iterator for Values<'a> {
    type Item = i32;

    ghost next_gives = { YieldsFirst (λ v. numbers_in v.rest) };

    ghost remaining = { item_count (λ v. numbers_in v.rest) };

    fn next(&mut self) -> Option<i32> {
        let numbers = self.rest;
        let more = numbers.count.checked_sub(1)?;
        let mut start = numbers.start;
        let number = start.item(numbers.items, more).ok()?;
        self.rest = Numbers {
            start,
            count: more,
            items: numbers.items,
        };
        Some(number)
    }
}
