// A list filled piece by piece.
ghost use Rattle.std.specs.Prelude.{◌≤◌, length};

use crate::bytes::put_items;
use crate::short::TooShort;
use crate::sink::Sink;

// A list of the caller's, and the place in it where the next items go.
#[derive(Drop)]
pub struct Pen<'a, T> {
    pub out: &'a mut [T],
    pub at: usize,
    ghost inside: { at ≤ length out.now },
}

impl<'a, T: Copy> Pen<'a, T> {
    ghost use Rattle.std.specs.Prelude.{◌≡◌};
    ghost use Rattle.base.specs.Pens.{page, putting};

    // All of the items or, where they do not fit, none.
    pub fn put_all(&mut self, items: &[T]) -> Result<(), TooShort>
        ensures put { (result, page self.new) ≡ putting (page self.old) items.now }
        ensures same_list { self.new.out.ghost_name ≡ self.old.out.ghost_name }
    {
        self.at += put_items(self.out, self.at, items)?;
        Ok(())
    }
}

impl<'a> Sink for Pen<'a, u8> {
    ghost use Rattle.base.specs.Pens.{page, has_room, filled};
    ghost use Rattle.base.specs.PensLawful.{pen_laws};

    ghost fits = { λ p bs. has_room (page p) bs };

    ghost after = { filled };

    ghost laws = { pen_laws };

    fn put(&mut self, bytes: &[u8]) -> Result<(), TooShort> {
        self.put_all(bytes)
    }
}
