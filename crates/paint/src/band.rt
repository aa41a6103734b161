/// Some lines of a page: how wide the page is, the first of the lines, and how many there are.
#[derive(Clone, Copy, PartialEq, Eq, Debug)]
pub(crate) struct Band {
    pub(crate) width: usize,
    pub(crate) first: usize,
    pub(crate) count: usize,
}
