// What has been read of a marker, or of a part of one in parentheses.

ghost use Rattle.std.specs.Prelude.{◌≡◌, IfOk};
ghost use Rattle.markers.specs.Tied.MarkerReading.{closed, empty_group, with_end, with_member};

use crate::marker::Marker;
use lists::Seq;
use std::alloc::{AllocError, Global};

/// Conjunctions joined by `or`, the last of which hasn't ended.
#[derive(Drop)]
pub(crate) struct Group {
    pub(crate) ended: Seq<Marker>,
    /// The members of the last conjunction.
    pub(crate) members: Seq<Marker>,
}

impl Group {
    /// The group with nothing in it. It has no refusal.
    pub(crate) fn new(alloc: Global) -> Group
        ensures { result ≡ empty_group }
    {
        Group {
            ended: Seq::new(alloc),
            members: Seq::new(alloc),
        }
    }

    pub(crate) fn with_member(self, member: Marker) -> Result<Group, AllocError>
        ensures { IfOk result (λ group. group ≡ with_member member self) }
    {
        let Group { ended, mut members } = self;
        members.push(member)?;
        Ok(Group { ended, members })
    }

    /// The group with its last conjunction ended.
    pub(crate) fn with_end(self, alloc: Global) -> Result<Group, AllocError>
        ensures { IfOk result (λ group. group ≡ with_end self) }
    {
        let Group { mut ended, members } = self;
        ended.push(Marker::all(members))?;
        Ok(Group {
            ended,
            members: Seq::new(alloc),
        })
    }

    /// The marker that the group is.
    pub(crate) fn closed(self, alloc: Global) -> Result<Marker, AllocError>
        ensures { IfOk result (λ marker. marker ≡ closed self) }
    {
        let Group { ended, .. } = self.with_end(alloc)?;
        Ok(Marker::any(ended))
    }
}
