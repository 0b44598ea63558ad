//! The extras that markers name, and the law that a marker doesn't tell others from none.

ghost use Rattle.markers.specs.MarkerExtras.{OtherExtrasAreAsNone};

/// With an extra that it doesn't name, a marker holds where it holds with none.
pub fn other_extras_are_as_none()
    ensures { OtherExtrasAreAsNone }
{}
