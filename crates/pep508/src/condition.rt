// The marker that a requirement may have.

ghost use Rattle.std.specs.Prelude.{◌≡◌, IfOk, None, Some};
ghost use Rattle.std.specs.Option.{option_copied};

use markers::Marker;
use std::alloc::{AllocError, Global};
use std::marker::Model;

/// A marker, where there is one. It stands in a block of its own, so that a requirement without one
/// takes little memory. In a clause it is the marker's tree, or nothing.
pub(crate) struct Condition {
    boxed: Option<Box<Marker>>,
}

impl Drop for Condition {
    fn drop(self) {
        let Condition { boxed: _ } = self;
    }
}

impl Model for Condition {
    ghost use Rattle.std.specs.Coded.{codes};
    ghost use Rattle.std.specs.Prelude.{Option};
    ghost use Rattle.std.specs.Option.{option_map};
    ghost use Rattle.markers.specs.MarkerTree.{Tree};
    ghost use Rattle.markers.specs.Tied.MarkerCode.{tree_code};

    ghost Value = { Option Tree };

    ghost coded = { Prim.hlevel (codes, tree_code) };

    ghost view = { λ c. option_map (λ b. b.value) c.boxed };
}

impl Condition {
    /// No marker.
    pub(crate) fn none() -> Condition
        ensures { result ≡ None }
    {
        Condition { boxed: None }
    }

    /// This marker.
    pub(crate) fn of_marker(alloc: Global, marker: Marker) -> Result<Condition, AllocError>
        ensures { IfOk result (λ condition. condition ≡ Some marker) }
    {
        let boxed = Box::new(alloc, marker)?;
        Ok(Condition { boxed: Some(boxed) })
    }

    /// The marker, lent.
    pub(crate) fn marker(&self) -> Option<&Marker>
        ensures { option_copied result ≡ self.now }
    {
        match &self.boxed {
            None => None,
            Some(boxed) => Some(boxed.as_ref()),
        }
    }
}
