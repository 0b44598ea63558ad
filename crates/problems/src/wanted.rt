// The dependencies that count.

ghost use Rattle.std.specs.Prelude.{◌≡◌, ◌++◌, ◌∷◌, [], IfOk, OnOk};
ghost use Rattle.std.specs.List.{filter};
ghost use Rattle.std.specs.Option.{option_copied};
ghost use Rattle.problems.specs.Rules.{counts};

use crate::releases::counts;
use lists::Lent;
use pep508::{Environment, Name, Requirement};
use std::alloc::{AllocError, Global};

/// Puts a dependency behind what is wanted, where it counts with an extra or none.
pub(crate) fn push_counted<'q>(
    wanted: &mut Lent<'q, Requirement>,
    environment: &Environment,
    extra: Option<&Name>,
    dependency: &'q Requirement,
) -> Result<(), AllocError>
    ensures { OnOk result
        (wanted.new
        ≡ wanted.old ++ filter (counts environment.now (option_copied extra.entry))
        (dependency.now ∷ [])) }
{
    if counts(environment, extra, dependency) {
        wanted.push(dependency)?;
    }
    Ok(())
}

/// The dependencies that count with an extra or none.
pub(crate) fn counted<'q>(
    alloc: Global,
    environment: &Environment,
    extra: Option<&Name>,
    dependencies: &'q [Requirement],
) -> Result<Lent<'q, Requirement>, AllocError>
    ensures { IfOk result
        (λ wanted. wanted
        ≡ filter (counts environment.now (option_copied extra.entry)) dependencies.now) }
{
    let mut wanted = Lent::new(alloc);
    for dependency in dependencies {
        push_counted(&mut wanted, environment, extra, dependency)?;
    }
    Ok(wanted)
}
