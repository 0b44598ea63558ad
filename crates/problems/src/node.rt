// The nodes of a problem.

ghost use Rattle.std.specs.Prelude.{◌≡◌};

use lists::Faithful;
use pep508::Name;
use std::alloc::AllocError;

/// A name with an extra of it, or with none.
pub struct Node {
    pub name: Name,
    pub extra: Option<Name>,
}

impl Drop for Node {
    fn drop(self) {
        let Node { name: _, extra: _ } = self;
    }
}

impl Clone for Node {
    ghost is_clone = { λ n m. m ≡ n };

    fn clone(&self) -> Result<Node, AllocError> {
        let name = self.name.clone()?;
        let extra = match &self.extra {
            Some(extra) => Some(extra.clone()?),
            None => None,
        };
        Ok(Node { name, extra })
    }
}

impl Faithful for Node {
    ghost clone_is_source = { λ x y h. h };
}
