// What `why` answers.

use crate::waiting::Telling;
use crate::why::{print_why, print_why_init};
use crate::why_not::print_why_not;
use answers::Watch;
use calls::{Call, asked_edit, first_paths};
use command_line::request::Question;
use files::StillFolder;
use inputs::HandedFiles;
use inputs::target_files::TargetPath;
use notes::Lacks;
use std::io::Write;
use stops::Stop;

/// Answers a question, of which these are the targets where it is about a first lock or about other targets. A question about a release is
/// always answered in sentences.
pub fn answer_why<R: AllocGlobal, F: StillFolder, G: HandedFiles, O: Write, W: Watch + Drop>(
    call: &mut Call<'_, R, O>,
    folder: &F,
    handed: &G,
    lacks: &mut Lacks,
    question: Question<'_>,
    telling: Telling<W>,
    targets: Vec<TargetPath>,
) -> Result<(), Stop> {
    match question {
        Question::Edit(asked, inputs) => {
            let unsaved = asked_edit(folder, handed, asked, inputs, targets)?;
            print_why(call, lacks, unsaved, inputs, telling)
        }
        Question::Init(inputs, line) => {
            let paths = first_paths(call.rt.alloc(), &inputs, targets)?;
            print_why_init(call, folder, handed, lacks, line, paths, telling)
        }
        Question::Release(text, index) => {
            print_why_not(call, folder, handed, lacks, text, index, telling)
        }
    }
}
