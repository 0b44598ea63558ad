//! Laws of problems and their solutions, each the contract of a function that does nothing.

pub use problems::laws::{
    admission_forgets_kept_versions, equal_versions_are_alike, the_best_solution_is_unique,
    the_rules_of_a_problem_are_lawful,
};
pub use search::laws::a_picture_keeps_the_best_solution;
