// Which target is told.

ghost use Rattle.std.specs.Prelude.{◌≡◌, find};
ghost use Rattle.std.specs.Option.{option_copied};
ghost use Rattle.exports.specs.NamedTarget.{has_name};

use states::Target;

/// The first target of the name; none exactly where no target has it.
pub fn target_named<'t>(targets: &'t [Target], name: &str) -> Option<&'t Target>
    ensures { option_copied result ≡ find (has_name name.now) targets.now }
{
    targets.iter().find(|target| target.name.as_str() == name)
}
