// Laws of edits that replace the lines.

ghost use Rattle.edits.specs.ReplaceLaws.{
  KeptVersionsThatFitStay,
  MergesAgree,
  ReplacingLinesByThemselvesIsARelock,
};

/// A merge doesn't depend on where one stands: replacing the lines of one state with the locks of another as pins, and
/// the lines of the other with the locks of the one, leads to the same locks.
pub fn a_merge_is_the_same_from_both_sides()
    ensures { MergesAgree }
{}

/// Replacing the file's lines by themselves, with no pins handed in, is a relock.
pub fn replacing_lines_by_themselves_is_a_relock()
    ensures { ReplacingLinesByThemselvesIsARelock }
{}

/// Where versions that are kept are a solution, the lock has these and no others.
pub fn kept_versions_that_fit_stay()
    ensures { KeptVersionsThatFitStay }
{}
