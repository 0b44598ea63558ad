// Flags, one for each number.

ghost use Rattle.std.specs.Prelude.{◌≡◌, false};
ghost use Rattle.std.specs.List.{slice_index_or};

/// Whether a flag is set; false where there is none.
pub fn flag(flags: &[bool], at: usize) -> bool
    ensures { result ≡ slice_index_or flags.now at false }
{
    match flags.get(at) {
        Some(flag) => *flag,
        None => false,
    }
}

/// Sets or clears a flag, where there is one.
pub fn set_flag(flags: &mut Vec<bool>, at: usize, value: bool) {
    if let Some(flag) = flags.get_mut(at) {
        *flag = value;
    }
}
