// Reasons for which a release isn't admitted.

/// Why a requirement doesn't admit a release of its name.
#[derive(Debug, Clone, Copy)]
pub enum Inadmissible {
    /// The version doesn't match the clause at the place, the first one that it doesn't match.
    Clause(usize),
    /// What the release asks of Python isn't met.
    Python,
    /// It is yanked, and neither the requirement nor an active line on its name pins a version.
    Yanked,
    /// It is a pre-release, none is named by the requirement or an active line on its name, and a
    /// final release fits.
    PreRelease,
    /// Both of the last two.
    YankedPreRelease,
}
