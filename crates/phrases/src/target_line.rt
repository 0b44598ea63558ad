// Whose table or refutation comes.

ghost use Rattle.std.specs.Prelude.{◌≡◌, ◌++◌, IfOk, string_bytes};
ghost use Rattle.phrases.specs.Plain.{target_line};

use std::alloc::AllocError;

/// The line that tells whose table or refutation comes; none for the empty name.
pub fn add_target_line(text: &mut String, name: &str) -> Result<(), AllocError>
    ensures { IfOk result (λ _.
        string_bytes text.new ≡ string_bytes text.old ++ target_line name.now) }
{
    if name.is_empty() {
        return Ok(());
    }
    write!(text, "target {name}\n")
}
