//! Laws of environments that answer alike, each the contract of a function that does nothing.

ghost use Rattle.exports.specs.Laws.{BestIsTheSame, LockIsTheSame};

/// Where all answers are the same that lines can ask for, so is the best solution, whatever versions are kept, alone or before others.
pub fn who_answers_alike_has_the_same_best_solution()
    ensures { BestIsTheSame }
{}

/// And so are the locks, but for the text that names the environment.
pub fn who_answers_alike_has_the_same_locks()
    ensures { LockIsTheSame }
{}
