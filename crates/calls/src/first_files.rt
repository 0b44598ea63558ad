// The files that a first lock is made of.

ghost use Rattle.std.specs.Prelude.{◌≡◌, IfOk};
ghost use Rattle.inputs.specs.PinsFiles.{pins_paths};

use command_line::request::InitOptions;
use files::first_inputs::FirstPaths;
use inputs::pins_files::pins_paths as paths_of_pins;
use inputs::target_files::TargetPath;
use std::alloc::Global;
use stops::Stop;

/// Where the files stand that a first lock is made of.
pub fn first_paths<'a>(
    alloc: Global,
    options: &InitOptions<'a>,
    targets: Vec<TargetPath>,
) -> Result<FirstPaths<'a>, Stop>
    ensures targets { IfOk result (λ paths. paths.targets ≡ targets) }
    ensures pins { IfOk result (λ paths. paths.pins.items ≡ pins_paths options.now.pins) }
    ensures index { IfOk result (λ paths. paths.index.now ≡ options.now.index.now) }
{
    let pins = paths_of_pins(alloc, options.pins.as_slice())?;
    Ok(FirstPaths {
        index: options.index,
        targets,
        pins,
    })
}
