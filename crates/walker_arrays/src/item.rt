// A thing to do, by its row: the row is begun, or a part of its own work is done.
#[derive(Clone, Copy)]
pub enum Item {
    Begin(u32),
    WorkMonadic(u32),
    WorkDiadic(u32),
    Check(u32),
    Load(u32),
    Set(u32),
    Store(u32),
    Choose(u32),
    Repeat(u32),
}
