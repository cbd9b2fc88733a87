ghost use Rattle.std.specs.Prelude.{◌≡◌, ◌≤◌, true, length, is_ok};
ghost use Rattle.reader.specs.Rows.{row_at};
ghost use Rattle.reader.specs.declared.pieces.Items.TheVariants.{Heads};

use crate::cursor::Cursor;
use crate::pieces::Items;
use crate::values::Values;
use book::kind::Kind;

// So many numbers of a text that were read before, from a place on.
#[derive(Clone, Copy)]
pub struct Numbers<'a> {
    pub start: Cursor<'a>,
    pub count: u32,
    pub items: Items,
    ghost reads: { is_ok (row_at items count start.text.now start.at) ≡ true },
}

#[derive(Clone, Copy)]
pub struct Rule<'a> {
    pub kind: Kind,
    pub heads: Numbers<'a>,
    pub body: Numbers<'a>,
    ghost atoms: { heads.items ≡ Heads },
}

// A name, where it stands in the text, and the literals that it names.
#[derive(Clone, Copy)]
pub struct Output<'a> {
    pub at: usize,
    pub name: &'a [u8],
    pub literals: Numbers<'a>,
    ghost early: { at ≤ 65536 },
    ghost short: { length name.now ≤ 65536 },
}

// A statement, as parts of the text that it was read from.
#[derive(Clone, Copy)]
pub enum Statement<'a> {
    Rule(Rule<'a>),
    Output(Output<'a>),
    // with its literals
    Assumption(Numbers<'a>),
    // a statement of a kind that is passed over, with what stands between its kind and the newline; the kind is the number
    // that the text has, since nothing tells such kinds apart
    Skipped { kind: u32, rest: &'a [u8] },
}

impl<'a> Numbers<'a> {
    ghost use Rattle.std.specs.Prelude.{◌≡◌, ◌≤◌, map, length, unsigned_abs};
    ghost use Rattle.reader.specs.Statements.{greatest};
    ghost use Rattle.reader.specs.Seen.{numbers_in};

    pub(crate) fn len(&self) -> usize
        ensures len { result ≡ length (numbers_in self.now) }
        ensures short { result ≤ 65536 }
    {
        self.count as usize
    }

    pub(crate) fn values(&self) -> Values<'a>
        ensures { numbers_in result.rest ≡ numbers_in self.now }
    {
        Values { rest: *self }
    }

    // The greatest atom; 0 where there is none.
    pub(crate) fn greatest(&self) -> u32
        ensures { result ≡ greatest (map unsigned_abs (numbers_in self.now)) }
    {
        self.values().map(|z| z.unsigned_abs()).max().unwrap_or(0)
    }
}

impl Rule<'_> {
    ghost use Rattle.std.specs.Prelude.{◌≡◌, ◌≤◌, [], ◌∷◌, length};
    ghost use Rattle.book.specs.Encoding.{encode};
    ghost use Rattle.reader.specs.Seen.{rule_meant};

    // How many integers it has in a list.
    pub(crate) fn size(&self) -> usize
        ensures size { result ≡ length (encode (rule_meant self.now ∷ [])) }
        ensures short { result ≤ 131076 }
    {
        4 + self.heads.len() + self.body.len()
    }
}
