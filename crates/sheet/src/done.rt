// What a call on a sheet that was not refused has done.
#[derive(Clone, Copy, Debug, PartialEq, Eq)]
pub enum Done {
    Opened,
    Entered,
    // this many entries were taken off
    Struck(u32),
    // this many atoms stay unmarked
    Completed(u32),
}
