ghost use Rattle.std.specs.Prelude.{◌≡◌, true, length, is_ok};
ghost use Rattle.reader.specs.Fill.{said_from};

use crate::cursor::Cursor;
use crate::statement::Statement;

// The statements of a text that can be read, from a place on.
#[derive(Drop)]
pub(crate) struct Statements<'a> {
    cursor: Cursor<'a>,
    ghost said: { is_ok (said_from (length cursor.text.now) cursor.text.now cursor.at) ≡ true },
}

impl<'a> Statements<'a> {
    ghost use Rattle.std.specs.Prelude.{◌≡◌, true, is_ok};
    ghost use Rattle.reader.specs.Fill.{listed};
    ghost use Rattle.reader.specs.Read.{statements_of};
    ghost use Rattle.reader.specs.Seen.{statements_left};

    // All of them.
    pub(crate) fn new(text: &'a [u8]) -> Statements<'a>
        requires { is_ok (statements_of text.now) ≡ true }
        ensures { statements_left result ≡ listed (statements_of text.now) }
    {
        Statements {
            cursor: Cursor { text, at: 10 },
        }
    }
}

impl<'a> Iterator for Statements<'a> {
    ghost use Rattle.std.specs.Iterator.{YieldsFirstBy, item_count};
    ghost use Rattle.reader.specs.Seen.{meant, statements_left};

    type Item = Statement<'a>;

    ghost next_gives = { YieldsFirstBy meant statements_left };

    ghost remaining = { item_count statements_left };

    fn next(&mut self) -> Option<Statement<'a>> {
        let mut cursor = self.cursor;
        let Ok(Some(statement)) = cursor.statement() else {
            return None;
        };
        self.cursor = cursor;
        Some(statement)
    }
}
