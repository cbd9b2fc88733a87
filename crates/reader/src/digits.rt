// The digits of a number.
ghost use Rattle.std.specs.Prelude.{◌≡◌, ◌^◌, ◌<◌, ◌≤◌, length};
ghost use Rattle.std.specs.Char.{is_ascii_digit};
ghost use Rattle.std.specs.List.{prefix_len};
ghost use Rattle.reader.specs.Fields.{read_on, formed, number_of};

// A number as it is written: digits, after a minus or none.
#[derive(Clone, Copy)]
pub(crate) struct Numeral<'a> {
    pub(crate) minus: bool,
    pub(crate) digits: &'a [u8],
    ghost only_digits: { prefix_len is_ascii_digit digits.now ≡ length digits.now },
}

// How many digits stand at the front.
pub(crate) fn digits_count(bytes: &[u8]) -> usize
    ensures count { result ≡ prefix_len is_ascii_digit bytes.now }
    ensures bound { result ≤ length bytes.now }
{
    bytes.iter().take_while(|b| b.is_ascii_digit()).count()
}

impl Numeral<'_> {
    // One to nine digits, no leading zero, and no zero after a minus.
    fn is_formed(self) -> bool
        ensures { result ≡ formed self.entry.minus self.entry.digits.now }
    {
        let n = self.digits.len();
        !(n == 0 || n > 9 || (self.digits[0] == b'0' && (self.minus || n > 1)))
    }

    // The number that at most nine digits write.
    #[tactic(auto, using(crate::proofs::Numerals::digit_steps))]
    fn size(self) -> u32
        requires { length self.digits.now ≤ 9 }
        ensures value { result ≡ read_on 0 self.entry.digits.now }
        ensures bound { result < 10 ^ 9 }
    {
        // A `fold` was tried: that no turn overflows was not proved.
        let mut size = 0;
        for d in self.digits {
            size = size * 10 + (*d - b'0') as u32;
        }
        size
    }

    // The number, where it is written as it has to be.
    pub(crate) fn value(self) -> Option<i32>
        ensures { result ≡ number_of self.entry.minus self.entry.digits.now }
    {
        if !self.is_formed() {
            return None;
        }
        let size = self.size() as i32;
        Some(if self.minus { -size } else { size })
    }
}
