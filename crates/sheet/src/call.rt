use crate::proposal::Proposal;

// A call on a sheet with its arguments, whatever they are.
#[derive(Clone, Copy)]
pub enum Call<'a> {
    Open(&'a [i32]),
    Enter(Proposal),
    Strike(u32),
    Complete,
}
