// What a walk is at: between two rows; at a row that is to be begun; or at its end.
#[derive(Clone, Copy)]
pub enum Mode {
    Settling,
    AtRow(u32),
    Finished,
    Stopped,
    BadSubscript,
}
