// In which of two joined books a rule stands, and where.
#[derive(Clone, Copy)]
pub(crate) enum Place {
    First(u32),
    Second(u32),
}
