// Terms, of which conflicts of sets are made.

use lists::Seq;

/// A node with some versions of its name.
#[derive(Debug)]
pub struct Term<X, V> {
    pub node: X,
    pub versions: Seq<V>,
}

impl<X: Drop, V: Drop> Drop for Term<X, V> {
    fn drop(self) {
        let Term {
            node: _,
            versions: _,
        } = self;
    }
}
