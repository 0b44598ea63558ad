// Who is told that work goes on.

/// Is told again and again, while a long answer is worked out, that it goes on, so that a person who waits can be told. No
/// answer rests on it.
pub trait Watch {
    /// It goes on.
    fn goes_on(&mut self);
}

/// Tells nobody.
#[derive(Debug, Drop)]
pub struct Unwatched;

impl Watch for Unwatched {
    fn goes_on(&mut self) {}
}
