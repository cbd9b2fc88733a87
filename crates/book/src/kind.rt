ghost use Rattle.std.specs.Prelude.{◌≡◌};
ghost use Rattle.book.specs.Encoding.{head_type, kind_told};
ghost use Rattle.book.specs.Rules.{head_limit};

// A plain rule derives its head atom, and without one is a constraint; a choice rule lets its head atoms be chosen.
#[derive(Clone, Copy, Debug, PartialEq, Eq)]
pub enum Kind {
    Plain,
    Choice,
}

impl Kind {
    // How many atoms a head may have.
    pub fn head_limit(self) -> u32
        ensures { result ≡ head_limit self }
    {
        match self {
            Kind::Plain => 1,
            Kind::Choice => 255,
        }
    }
}

// The number by which a text tells the kind.
impl From<Kind> for i32 {
    ghost from_gives = { λ kind n. n ≡ head_type kind };

    fn from(kind: Kind) -> i32 {
        match kind {
            Kind::Plain => 0,
            Kind::Choice => 1,
        }
    }
}

// No kind is told by this number.
#[derive(Clone, Copy, Debug, PartialEq, Eq)]
pub struct NoSuchKind;

// The kind that a number tells.
impl TryFrom<i32> for Kind {
    type Error = NoSuchKind;

    ghost try_from_gives = { λ n r. r ≡ kind_told n };

    fn try_from(n: i32) -> Result<Kind, NoSuchKind> {
        match n {
            0 => Ok(Kind::Plain),
            1 => Ok(Kind::Choice),
            _ => Err(NoSuchKind),
        }
    }
}
