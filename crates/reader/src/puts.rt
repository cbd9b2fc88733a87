// The numbers of statements, put into a list of the caller's.
ghost use Rattle.std.specs.Prelude.{◌≡◌, ◌≤◌, [], ◌∷◌, pos};
ghost use Rattle.book.specs.Encoding.{encode_rule};
ghost use Rattle.reader.specs.Fill.{Puts};
ghost use Rattle.reader.specs.Seen.{numbers_in, rule_meant};

use crate::statement::{Numbers, Rule};
use base::pen::Pen;
use base::short::TooShort;

pub(crate) fn put_numbers(pen: &mut Pen<'_, i32>, numbers: Numbers<'_>) -> Result<(), TooShort>
    ensures { Puts pen.old (numbers_in numbers.entry) result pen.new }
{
    for value in numbers.values() {
        pen.put_all(&[value])?;
    }
    Ok(())
}

// A type, and a count.
fn put_opening(pen: &mut Pen<'_, i32>, number: i32, count: u32) -> Result<(), TooShort>
    requires { count ≤ 65536 }
    ensures { Puts pen.old (number ∷ pos count ∷ []) result pen.new }
{
    pen.put_all(&[number, count as i32])
}

pub(crate) fn put_rule(pen: &mut Pen<'_, i32>, rule: Rule<'_>) -> Result<(), TooShort>
    ensures { Puts pen.old (encode_rule (rule_meant rule.entry)) result pen.new }
{
    put_opening(pen, i32::from(rule.kind), rule.heads.count)?;
    put_numbers(pen, rule.heads)?;
    put_opening(pen, 0, rule.body.count)?;
    put_numbers(pen, rule.body)
}
