// What is told where a command or a first lock is refused.

ghost use Rattle.std.specs.Prelude.{◌≡◌, IfOk, map};

use crate::details::Details;
use answers::{lines_of, told_refutation};
use edits::{
    Edit, Environment, FirstTargets, Line, Pool, Problem, Refusal, ReqFile, Snapshot, State,
    TargetName, Targets, edit, problem_after, problems_of_init,
};
use journal::Command;
use lists::Seq;
use notes::{
    RefusedEdit, add_lacking, add_newest_releases, add_question, add_refusal_details,
    add_refusal_steps,
};
use phrases::Notes;
use resolve::RESOLVER;
use std::alloc::{AllocError, Global};

/// How many lines of sentences are told at once. More are left to `why`.
const MOST_LINES: usize = 40;

/// What a first lock is made of.
#[derive(Drop)]
pub struct FirstQuestion {
    lines: ReqFile,
    targets: Targets,
}

impl Details {
    /// Notes what is known of a refused command.
    pub fn add_refusal(
        &mut self,
        alloc: Global,
        state: &State,
        command: &Command<'_>,
        refusal: &Refusal,
    ) -> Result<(), AllocError> {
        if !self.manner.tells_lacks {
            return Ok(());
        }
        let Command::Edit(wanted, pool) = command else {
            return self.add_sentence(refusal);
        };
        let refused = RefusedEdit {
            state,
            edit: wanted,
            snapshot: pool.snapshot,
            refusal,
        };
        if self.manner.tells {
            self.add_known(alloc, refused, pool)?;
        }
        self.add_refused_lacks(alloc, refused, pool)
    }

    /// The refusal as a sentence.
    fn add_sentence(&mut self, refusal: &Refusal) -> Result<(), AllocError> {
        if !self.manner.tells {
            return Ok(());
        }
        write!(self.known, "{refusal}\n")
    }

    /// What is known of a refused edit, why it is refused, and what to do next.
    fn add_known(
        &mut self,
        alloc: Global,
        refused: RefusedEdit<'_>,
        pool: &Pool<'_>,
    ) -> Result<(), AllocError> {
        add_refusal_details(alloc, &mut self.known.text, refused)?;
        if self.manner.is_person {
            let mut steps = Notes::new(alloc);
            add_refusal_steps(alloc, &mut steps, self.options.as_str(), refused)?;
            self.steps = steps;
        }
        self.add_question(alloc, refused, pool)
    }

    /// Notes that nothing of a batch is saved, and which of its lines was refused first.
    pub fn add_refused_line(&mut self, number: usize, refusal: &Refusal) -> Result<(), AllocError> {
        if !self.manner.tells {
            return Ok(());
        }
        write!(
            self.known,
            "nothing is saved: the command of line {number} was refused first: {refusal}\n"
        )?;
        if *refusal == Refusal::BadCommand {
            self.known.push_str(
                "Its commands are add, remove, constrain, upgrade, relock, undo and redo; replace and retarget are calls of their own.\n",
            )?;
        }
        Ok(())
    }

    /// What the index lacks of what an edit without a solution asks for.
    fn add_refused_lacks(
        &mut self,
        alloc: Global,
        refused: RefusedEdit<'_>,
        pool: &Pool<'_>,
    ) -> Result<(), AllocError> {
        if *refused.refusal != Refusal::NoSolution {
            return Ok(());
        }
        match problem_after(alloc, refused.state, refused.edit, pool) {
            Ok(problems) => self.add_lacks_of(alloc, problems.as_slice()),
            Err(Refusal::OutOfMemory) => Err(AllocError),
            Err(_) => Ok(()),
        }
    }

    /// The same of the problems. Of the lines themselves it may be told already.
    fn add_lacks_of(
        &mut self,
        alloc: Global,
        problems: &[(TargetName, Problem<'_>)],
    ) -> Result<(), AllocError> {
        let tells_lines = self.known.is_empty();
        for (target, problem) in problems {
            self.lacks.add_asked(alloc, target, problem, tells_lines)?;
        }
        Ok(())
    }

    /// Why there is no solution, or the question that tells it.
    fn add_question(
        &mut self,
        alloc: Global,
        refused: RefusedEdit<'_>,
        pool: &Pool<'_>,
    ) -> Result<(), AllocError> {
        if *refused.refusal != Refusal::NoSolution {
            return Ok(());
        }
        let may_move = pool.only_kept && has_solution(alloc, refused)?;
        if self.manner.is_person {
            let width = self.manner.style.explained_width();
            let reasons = reasons_of(alloc, refused, pool, width)?;
            if is_told_at_once(reasons.as_str()) {
                self.add_reasons(reasons);
                return self.add_moving(may_move);
            }
        }
        self.add_moving(may_move)?;
        if may_move {
            self.options.push_str(" --keep-locked")?;
        }
        add_question(&mut self.known.text, self.options.as_str(), refused.edit)
    }

    fn add_moving(&mut self, may_move: bool) -> Result<(), AllocError> {
        if !may_move {
            return Ok(());
        }
        self.known
            .push_str("without --keep-locked there is a solution\n")
    }

    /// They say all that was known, in the place of it.
    fn add_reasons(&mut self, reasons: String) {
        self.known.clear();
        self.reasons = reasons;
    }

    /// What a first lock is made of, where something will be told of its refusal.
    pub fn first_question(
        &self,
        alloc: Global,
        lines: &ReqFile,
        targets: &Targets,
    ) -> Result<Option<FirstQuestion>, AllocError> {
        if !self.manner.tells_lacks {
            return Ok(None);
        }
        match copy_of(alloc, targets)? {
            Some(targets) => Ok(Some(FirstQuestion {
                lines: lines.clone()?,
                targets,
            })),
            None => Ok(None),
        }
    }

    /// Notes what is known where a first lock is refused.
    pub fn add_first_refusal(
        &mut self,
        alloc: Global,
        refusal: &Refusal,
        question: Option<FirstQuestion>,
        snapshot: &Snapshot,
    ) -> Result<(), AllocError> {
        let Some(FirstQuestion { lines, targets }) = question else {
            return Ok(());
        };
        self.add_sentence(refusal)?;
        if *refusal != Refusal::NoSolution {
            return Ok(());
        }
        if self.manner.tells {
            self.add_lacking(alloc, lines.lines(), &targets, snapshot)?;
        }
        let problems = match first_problems(alloc, &lines, targets, snapshot)? {
            Some(problems) => problems,
            None => return Ok(()),
        };
        if self.manner.tells {
            self.add_first_question(alloc, &lines, problems.as_slice())?;
        }
        self.add_lacks_of(alloc, problems.as_slice())
    }

    /// Why a first lock has no solution, or the question that tells it.
    fn add_first_question(
        &mut self,
        alloc: Global,
        lines: &ReqFile,
        problems: &[(TargetName, Problem<'_>)],
    ) -> Result<(), AllocError> {
        if self.manner.is_person {
            let width = self.manner.style.explained_width();
            let told = told_refutation(alloc, lines.lines(), &Edit::Relock, problems, width)?;
            if let Some(reasons) = told {
                if is_told_at_once(reasons.as_str()) {
                    self.add_reasons(reasons);
                    return Ok(());
                }
            }
        }
        let options = self.options.as_str();
        write!(self.known, "ask: reqlock{options} why --explain --init\n")
    }

    /// The names of a first lock that the index lacks, and the newest releases of those whose lines admit none.
    fn add_lacking(
        &mut self,
        alloc: Global,
        lines: &[Line],
        targets: &Targets,
        snapshot: &Snapshot,
    ) -> Result<(), AllocError> {
        let environments = environments_of(alloc, targets)?;
        let environments = environments.as_slice();
        add_lacking(alloc, &mut self.known.text, lines, environments, snapshot)?;
        if self.manner.is_person {
            let mut steps = Notes::new(alloc);
            add_newest_releases(&mut steps.text, lines, environments, snapshot)?;
            self.steps = steps;
        }
        Ok(())
    }
}

fn copy_of(alloc: Global, targets: &Targets) -> Result<Option<Targets>, AllocError> {
    let mut given = Vec::new(alloc);
    for (name, environment) in targets.as_slice() {
        given.push((name.clone()?, environment.clone()?))?;
    }
    match Targets::new(alloc, Seq::from_vec(given)) {
        Ok(targets) => Ok(Some(targets)),
        Err(Refusal::OutOfMemory) => Err(AllocError),
        Err(_) => Ok(None),
    }
}

fn is_told_at_once(reasons: &str) -> bool {
    !reasons.is_empty() && reasons.lines().count() <= MOST_LINES
}

/// The sentences that tell why a refused edit has no solution, in lines of the width at most.
fn reasons_of(
    alloc: Global,
    refused: RefusedEdit<'_>,
    pool: &Pool<'_>,
    width: usize,
) -> Result<String, AllocError> {
    let problems = match problem_after(alloc, refused.state, refused.edit, pool) {
        Ok(problems) => problems,
        Err(Refusal::OutOfMemory) => return Err(AllocError),
        Err(_) => return Ok(String::new(alloc)),
    };
    let lines = lines_of(refused.edit, refused.state);
    match told_refutation(alloc, lines, refused.edit, problems.as_slice(), width)? {
        Some(reasons) => Ok(reasons),
        None => Ok(String::new(alloc)),
    }
}

/// The problems of a first lock.
fn first_problems<'a>(
    alloc: Global,
    lines: &ReqFile,
    targets: Targets,
    snapshot: &'a Snapshot,
) -> Result<Option<Seq<(TargetName, Problem<'a>)>>, AllocError> {
    // which versions are kept says nothing about whether there is a solution
    let pins = Seq::new(alloc);
    let first = FirstTargets { targets, pins };
    match problems_of_init(alloc, lines, &Edit::Relock, first, snapshot) {
        Ok(problems) => Ok(Some(problems)),
        Err(Refusal::OutOfMemory) => Err(AllocError),
        Err(_) => Ok(None),
    }
}

/// The environments of the targets, in their order.
pub fn environments_of(alloc: Global, targets: &Targets) -> Result<Vec<&Environment>, AllocError>
    ensures { IfOk result (λ environments. map (λ environment. environment.now) environments.items
        ≡ map (λ target. target.1) targets.now) }
{
    let mut environments = Vec::new(alloc);
    for (_, environment) in targets.as_slice() {
        environments.push(environment)?;
    }
    Ok(environments)
}

/// Whether an edit that was refused has a solution where locked versions may move.
fn has_solution(alloc: Global, refused: RefusedEdit<'_>) -> Result<bool, AllocError> {
    let pool = Pool::whole(refused.snapshot);
    match edit(alloc, refused.state, refused.edit, &pool, &RESOLVER) {
        Ok(_) | Err(Refusal::NothingChanges) => Ok(true),
        Err(Refusal::OutOfMemory) => Err(AllocError),
        Err(_) => Ok(false),
    }
}
