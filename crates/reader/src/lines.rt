// One line of a text.
ghost use Rattle.std.specs.Prelude.{◌≡◌, ◌+◌, ◌-◌, ◌<◌, ◌≤◌, length, take, drop, IfOk};
ghost use Rattle.std.specs.List.{prefix_len};
ghost use Rattle.reader.specs.Cursors.{Reads};
ghost use Rattle.reader.specs.Lines.{counted_at, headed_to, head_type_at, body_type_at, rule_at, name_end_at, output_at, assumption_at, in_line, skipped_at, line_at};
ghost use Rattle.reader.specs.Seen.{row_to, said_to, line_to};

use crate::cursor::Cursor;
use crate::pieces::{After, Count, Items};
use crate::statement::{Numbers, Output, Rule, Statement};
use aspif::error::TextError;
use book::kind::Kind;

// How many bytes stand before the first newline. Counted as digits are, by the library: there is nothing to share.
fn line_size(bytes: &[u8]) -> usize
    ensures size { result ≡ prefix_len in_line bytes.now }
    ensures bound { result ≤ length bytes.now }
{
    bytes.iter().take_while(|b| **b != b'\n').count()
}

impl<'a> Cursor<'a> {
    // A count, and then so many numbers. Both are named: a count of the bytes of a name has no numbers after it.
    #[tactic(auto, using(crate::proofs::Steps::row_reads), unfolding(crate::specs::Lines::counted_at))]
    fn counted(&mut self, count: Count, items: Items) -> Result<Numbers<'a>, TextError>
        ensures reads { Reads row_to (counted_at count items) self.old result self.new }
        ensures items { IfOk result (λ numbers. numbers.items ≡ items) }
    {
        let count = self.count(count)?;
        let start = *self;
        self.row(items, count)?;
        Ok(Numbers {
            start,
            count,
            items,
        })
    }

    // The kind of a rule.
    #[tactic(auto, unfolding(crate::specs::Lines::head_type_at))]
    fn head_type(&mut self) -> Result<Kind, TextError>
        ensures { Reads headed_to head_type_at self.old result self.new }
    {
        let at = self.offset();
        let number = self.field(After::Space)?;
        Kind::try_from(number).map_err(|_| TextError::Malformed(at))
    }

    // The type of a body, where it is one that is read.
    #[tactic(auto, unfolding(crate::specs::Lines::body_type_at))]
    fn body_type(&mut self) -> Result<(), TextError>
        ensures { Reads (λ _ next. next) body_type_at self.old result self.new }
    {
        let at = self.offset();
        match self.field(After::Space)? {
            t if t < 0 || t > 1 => Err(TextError::Malformed(at)),
            0 => Ok(()),
            _ => Err(TextError::Unsupported(at)),
        }
    }

    // Not inlined, so that a line that is passed over does not pay for the numbers of a rule.
    #[tactic(auto, unfolding(crate::specs::Lines::rule_at))]
    #[inline(never)]
    fn rule(&mut self) -> Result<Statement<'a>, TextError>
        ensures { Reads said_to rule_at self.old result self.new }
    {
        let kind = self.head_type()?;
        let heads = self.counted(Count::Heads(kind), Items::Heads)?;
        self.body_type()?;
        let body = self.counted(Count::Literals, Items::Literals)?;
        Ok(Statement::Rule(Rule { kind, heads, body }))
    }

    // A name of so many bytes, and the space that has to stand after it.
    fn name(&mut self, size: u32) -> Result<&'a [u8], TextError>
        ensures name { IfOk result (λ name. name.now ≡ take size (drop self.old.at self.old.text.now)) }
        ensures end { Reads (λ _ next. next) (λ text at. name_end_at text (at + size)) self.old result self.new }
        ensures short { IfOk result (λ name. length name.now ≤ 65536) }
    {
        let from = self.at;
        let end = from + size as usize;
        if self.byte(end)? != b' ' {
            return Err(TextError::Malformed(end as u32));
        }
        Ok(&self.text[from..end])
    }

    #[tactic(auto, unfolding(crate::specs::Lines::output_at))]
    fn output(&mut self) -> Result<Statement<'a>, TextError>
        ensures { Reads said_to output_at self.old result self.new }
    {
        let size = self.count(Count::Name)?;
        let at = self.at;
        let name = self.name(size)?;
        let literals = self.counted(Count::Literals, Items::Literals)?;
        Ok(Statement::Output(Output { at, name, literals }))
    }

    #[tactic(auto, unfolding(crate::specs::Lines::assumption_at))]
    fn assumption(&mut self) -> Result<Statement<'a>, TextError>
        ensures { Reads said_to assumption_at self.old result self.new }
    {
        let literals = self.counted(Count::Assumed, Items::Literals)?;
        Ok(Statement::Assumption(literals))
    }

    // What stands from the byte after a kind to the newline.
    #[tactic(auto, unfolding(crate::specs::Lines::skipped_at))]
    fn skipped(&mut self, kind: u32) -> Result<Statement<'a>, TextError>
        requires { 0 < self.old.at }
        ensures { Reads said_to (λ text at. skipped_at kind text (at - 1)) self.old result self.new }
    {
        let from = self.at - 1;
        let end = from + line_size(&self.text[from..]);
        self.byte(end)?;
        Ok(Statement::Skipped {
            kind,
            rest: &self.text[from..end],
        })
    }

    // What the next line says; nothing where it is the closing line. The kinds are the numbers that the format gives them,
    // and those that are passed over have no meaning here, so there is no type of them.
    #[tactic(auto, unfolding(crate::specs::Lines::line_at))]
    pub(crate) fn statement(&mut self) -> Result<Option<Statement<'a>>, TextError>
        ensures { Reads line_to line_at self.old result self.new }
    {
        let at = self.offset();
        let kind = self.field(After::ByKind)?;
        let statement = match kind {
            0 => return Ok(None),
            1 => self.rule()?,
            4 => self.output()?,
            6 => self.assumption()?,
            2 | 3 | 7 | 10 => self.skipped(kind.unsigned_abs())?,
            i32::MIN..=-1 => return Err(TextError::Malformed(at)),
            _ => return Err(TextError::Unsupported(at)),
        };
        Ok(Some(statement))
    }
}
