ghost use Rattle.std.specs.Prelude.{◌≤◌, length};

// A text, and how far it is read.
#[derive(Clone, Copy)]
pub struct Cursor<'a> {
    pub text: &'a [u8],
    pub at: usize,
    ghost short: { length text.now ≤ 65536 },
    ghost inside: { at ≤ length text.now },
}
