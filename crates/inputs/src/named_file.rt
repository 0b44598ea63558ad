// Files that values of the command line name, each with a name of its own in front.

use lists::Text;

/// Where a file stands, and the name that is given with it: of the target that it is for.
#[derive(Drop)]
pub struct NamedPath<N> {
    pub(crate) name: N,
    pub(crate) path: Text,
}

/// What such a file holds.
#[derive(Drop)]
pub struct NamedBytes<N> {
    pub(crate) name: N,
    pub(crate) path: Text,
    pub(crate) bytes: Vec<u8>,
}
