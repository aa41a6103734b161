ghost use Rattle.std.specs.Prelude.{◌≤◌, length};

/// A list over lent memory, since there is no heap: the items stand at the first `len` of the places.
#[derive(Drop)]
pub struct List<'a, T> {
    pub(crate) places: &'a mut [T],
    pub(crate) len: usize,
    ghost fits: { len ≤ length places.now },
}
