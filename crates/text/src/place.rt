/// Where a content stands in the file: its first byte, and the one after its last.
#[derive(Clone, Copy, PartialEq, Eq, Debug)]
pub struct Place {
    pub from: usize,
    pub to: usize,
}
