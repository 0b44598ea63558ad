// Arguments, as help shows them, of which something holds or not.

ghost use Rattle.std.specs.Prelude.{◌≡◌};
ghost use Rattle.command_line.specs.Marks.{first_marked, first_of_two};
ghost use Rattle.command_line.specs.Options.{marks_of, text_of};

/// The first of which it holds.
pub(crate) fn first_marked(marks: &[(&'static str, bool)]) -> Option<&'static str>
    ensures { text_of result ≡ first_marked (marks_of marks.now) }
{
    for (shown, holds) in marks {
        if *holds {
            return Some(*shown);
        }
    }
    None
}

/// The first of two of which it holds.
pub(crate) fn first_of_two(marks: &[(&'static str, bool)]) -> Option<&'static str>
    ensures { text_of result ≡ first_of_two (marks_of marks.now) }
{
    let mut first = None;
    for (shown, holds) in marks {
        if !*holds {
            continue;
        }
        if first.is_some() {
            return first;
        }
        first = Some(*shown);
    }
    None
}
