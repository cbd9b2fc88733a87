// What every refusal is told by: its number, and two place numbers, printed as 0 where one is not used. The number is what is
// printed; which refusal it is, is a case of the error of its layer.
#[derive(Clone, Copy, Debug, PartialEq, Eq)]
pub struct Refusal {
    pub number: u8,
    pub first: u32,
    pub second: u32,
}
