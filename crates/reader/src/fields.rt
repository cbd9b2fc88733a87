// One number of a text.
ghost use Rattle.std.specs.Prelude.{◌≡◌, ◌+◌, ◌<◌, ◌≤◌, length, IfOk, OnOk};
ghost use Rattle.reader.specs.Fields.{minus_at, digits_from, goes_on, follows, field_at, field_to, byte_at};
ghost use Rattle.reader.specs.Cursors.{Reads};

use crate::cursor::Cursor;
use crate::digits::{Numeral, digits_count};
use crate::pieces::After;
use aspif::error::TextError;
use base::parts::item_or;

// The kinds of statement that have more numbers. Kinds are the numbers that the format gives them.
fn goes_on(kind: i32) -> bool
    ensures { result ≡ goes_on kind }
{
    matches!(kind, 1 | 4 | 6)
}

impl After {
    // Whether a byte may stand after a number.
    fn allows(self, value: i32, byte: u8) -> bool
        ensures { result ≡ follows self value byte }
    {
        match self {
            After::Space => byte == b' ',
            After::Newline => byte == b'\n',
            After::ByCount if value == 0 => byte == b'\n',
            After::ByCount => byte == b' ',
            After::ByKind => (byte == b' ' && value != 0) || (byte == b'\n' && !goes_on(value)),
        }
    }
}

impl Cursor<'_> {
    // Where the text is read up to, as a fault tells it.
    pub(crate) fn offset(&self) -> u32
        ensures { result ≡ self.now.at }
    {
        self.at as u32
    }

    fn is_minus(&self) -> bool
        ensures { result ≡ minus_at self.now.text.now self.now.at }
    {
        item_or(self.text, self.at, 0) == b'-'
    }

    // Where the digits of the next number begin.
    fn digits_start(&self) -> usize
        ensures start { result ≡ digits_from self.now.text.now self.now.at }
        ensures bound { (self.now.at ≤ result) × (result ≤ length self.now.text.now) }
    {
        if self.is_minus() {
            self.at + 1
        } else {
            self.at
        }
    }

    // The byte at a place, after which the text goes on.
    pub(crate) fn byte(&mut self, at: usize) -> Result<u8, TextError>
        ensures byte { result ≡ byte_at self.old.text.now at }
        ensures next { OnOk result (self.new.at ≡ at + 1) }
        ensures same_text { self.new.text ≡ self.old.text }
    {
        let text = self.text;
        let byte = text
            .get(at)
            .ok_or(TextError::UnexpectedEnd(text.len() as u32))?;
        self.at = at + 1;
        Ok(*byte)
    }

    // A number, and the byte after it. Inlined, since a text is read number by number: a call for each made short lines slower.
    #[tactic(auto, using(crate::proofs::Scans::number_steps))]
    #[inline(always)]
    pub(crate) fn field(&mut self, after: After) -> Result<i32, TextError>
        ensures reads { Reads (field_to self.old.text.now) (field_at after) self.old result self.new }
        ensures forward { IfOk result (λ _. self.old.at < self.new.at) }
    {
        let malformed = TextError::Malformed(self.offset());
        let from = self.digits_start();
        let end = from + digits_count(&self.text[from..]);
        let numeral = Numeral {
            minus: self.is_minus(),
            digits: &self.text[from..end],
        };
        let ending = self.byte(end)?;
        let value = numeral.value().ok_or(malformed)?;
        if !after.allows(value, ending) {
            return Err(malformed);
        }
        Ok(value)
    }
}
