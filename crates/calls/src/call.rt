// The call that a subcommand is done for.

use phrases::Style;

/// What a subcommand is given beside its own words: the system, the folder of the files, and where its texts go.
#[derive(Drop)]
pub struct Call<'a, R, O> {
    pub rt: &'a R,
    pub dir: &'a str,
    pub output: O,
    /// How what is written to the output looks.
    pub style: Style,
}
