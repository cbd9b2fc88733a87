// The buffer ends before the last byte that was to be put there.
#[derive(Clone, Copy, Debug, PartialEq, Eq)]
pub struct TooShort;
