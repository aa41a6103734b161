/// What a cell asks of its columns: the width that it needs, and the one that it would fill.
#[derive(Clone, Copy, PartialEq, Eq, Debug)]
pub struct Ask {
    pub least: u16,
    pub greatest: u16,
}
