// Conflicts as lists of numbers.

use crate::choice::Choice;
use lists::Seq;
use std::alloc::{AllocError, Global};

/// A choice, and the place of a conflict that has it.
type Listed<'c> = (&'c Choice, usize);

/// The conflicts of a list, each by the numbers of its choices, rising. The number of a choice is its place among all
/// choices of the list in their order, each once.
#[derive(Drop)]
pub(crate) struct Numbers {
    conflicts: Vec<Vec<usize>>,
    /// By the number of a choice the places of conflicts, rising. Each is listed once, under the choice that the
    /// fewest conflicts have; one without choices isn't listed.
    listed: Vec<Vec<usize>>,
}

/// What a conflict has that another one hasn't.
#[derive(Clone, Copy)]
enum Lacking {
    Nothing,
    One(usize),
    More,
}

/// Lists a conflict under each of its choices.
fn list<'c>(
    listed: &mut Vec<Listed<'c>>,
    conflict: &'c [Choice],
    place: usize,
) -> Result<(), AllocError> {
    for choice in conflict {
        listed.push((choice, place))?;
    }
    Ok(())
}

/// Each conflict under each of its choices, in the order of these.
fn by_each_choice<'c>(
    alloc: Global,
    conflicts: &'c [Seq<Choice>],
) -> Result<Vec<Listed<'c>>, AllocError> {
    let mut listed = Vec::new(alloc);
    for place in 0..conflicts.len() {
        list(&mut listed, conflicts[place].as_slice(), place)?;
    }
    listed.sort_unstable();
    Ok(listed)
}

/// So many empty lists.
fn empty_lists(alloc: Global, count: usize) -> Result<Vec<Vec<usize>>, AllocError> {
    let mut lists = Vec::new(alloc);
    for _ in 0..count {
        lists.push(Vec::new(alloc))?;
    }
    Ok(lists)
}

/// Pushes a number behind those of a list; nothing where there is no such list.
fn push_to(lists: &mut [Vec<usize>], at: usize, number: usize) -> Result<(), AllocError> {
    if let Some(list) = lists.get_mut(at) {
        list.push(number)?;
    }
    Ok(())
}

/// The list of this number; an empty one where there is none.
fn list_at(lists: &[Vec<usize>], at: usize) -> &[usize] {
    match lists.get(at) {
        Some(list) => list.as_slice(),
        None => &[],
    }
}

/// Whether a choice is the last one of these.
fn is_last(choices: &[&Choice], choice: &Choice) -> bool {
    match choices.last() {
        Some(last) => last.is_same(choice),
        None => false,
    }
}

/// The choices of the conflicts in their order, each once, and the conflicts by the numbers of these.
fn by_numbers<'c>(
    alloc: Global,
    conflicts: &'c [Seq<Choice>],
) -> Result<(Vec<&'c Choice>, Vec<Vec<usize>>), AllocError> {
    let mut choices: Vec<&'c Choice> = Vec::new(alloc);
    let mut numbers = empty_lists(alloc, conflicts.len())?;
    let listed = by_each_choice(alloc, conflicts)?;
    for one in listed.as_slice() {
        let (choice, place) = *one;
        if !is_last(choices.as_slice(), choice) {
            choices.push(choice)?;
        }
        push_to(&mut numbers, place, choices.len().saturating_sub(1))?;
    }
    Ok((choices, numbers))
}

/// Counts each number of a conflict.
fn count(counts: &mut [usize], conflict: &[usize]) {
    for number in conflict {
        if let Some(count) = counts.get_mut(*number) {
            *count = count.saturating_add(1);
        }
    }
}

/// By the number of each choice, how many conflicts have it.
fn counts_of(
    alloc: Global,
    conflicts: &[Vec<usize>],
    choices: usize,
) -> Result<Vec<usize>, AllocError> {
    let mut counts = vec![in alloc; 0_usize; choices]?;
    for conflict in conflicts {
        count(&mut counts, conflict.as_slice());
    }
    Ok(counts)
}

/// The number of a conflict that the fewest conflicts have.
fn rarest(counts: &[usize], conflict: &[usize]) -> Option<usize> {
    let mut rarest = None;
    let mut least = usize::MAX;
    for number in conflict {
        if let Some(count) = counts.get(*number) {
            if *count < least {
                rarest = Some(*number);
                least = *count;
            }
        }
    }
    rarest
}

/// By the number of each choice the places of the conflicts that are listed under it.
fn listed_of(
    alloc: Global,
    conflicts: &[Vec<usize>],
    choices: usize,
) -> Result<Vec<Vec<usize>>, AllocError> {
    let counts = counts_of(alloc, conflicts, choices)?;
    let mut listed = empty_lists(alloc, choices)?;
    for place in 0..conflicts.len() {
        if let Some(number) = rarest(counts.as_slice(), conflicts[place].as_slice()) {
            push_to(&mut listed, number, place)?;
        }
    }
    Ok(listed)
}

/// The choices of the conflicts in their order, each once, and the conflicts by the numbers of these.
pub(crate) fn numbered<'c>(
    alloc: Global,
    conflicts: &'c [Seq<Choice>],
) -> Result<(Vec<&'c Choice>, Numbers), AllocError> {
    let (choices, conflicts) = by_numbers(alloc, conflicts)?;
    let listed = listed_of(alloc, conflicts.as_slice(), choices.len())?;
    Ok((choices, Numbers { conflicts, listed }))
}

/// The first place from this one on at which a number isn't below a bound.
fn place_from(numbers: &[usize], from: usize, bound: usize) -> usize {
    for place in from..numbers.len() {
        if numbers[place] >= bound {
            return place;
        }
    }
    numbers.len()
}

/// What one conflict has that another one hasn't, both by rising numbers.
fn lacked(old: &[usize], own: &[usize]) -> Lacking {
    let mut lacking = Lacking::Nothing;
    let mut from = 0;
    for number in old {
        from = place_from(own, from, *number);
        if own.get(from) != Some(number) {
            if let Lacking::One(_) = lacking {
                return Lacking::More;
            }
            lacking = Lacking::One(*number);
        }
    }
    lacking
}

/// Puts a place with each of the numbers behind the others.
fn push_each(
    near: &mut Vec<(usize, usize)>,
    numbers: &[usize],
    place: usize,
) -> Result<(), AllocError> {
    for number in numbers {
        near.push((*number, place))?;
    }
    Ok(())
}

impl Numbers {
    /// Puts those of the places before one behind the others at which a conflict stands that has at most one choice
    /// which the conflict at this one hasn't: with the number of this choice, or with each of its own.
    fn push_near(
        &self,
        near: &mut Vec<(usize, usize)>,
        listed: &[usize],
        place: usize,
    ) -> Result<(), AllocError> {
        let own = list_at(self.conflicts.as_slice(), place);
        for earlier in listed {
            if *earlier >= place {
                return Ok(());
            }
            let old = list_at(self.conflicts.as_slice(), *earlier);
            match lacked(old, own) {
                Lacking::Nothing => push_each(near, old, *earlier)?,
                Lacking::One(number) => near.push((number, *earlier))?,
                Lacking::More => {}
            }
        }
        Ok(())
    }

    /// The same of all places that are listed under a choice of the conflict at one, in the order of the numbers.
    pub(crate) fn near(
        &self,
        alloc: Global,
        place: usize,
    ) -> Result<Vec<(usize, usize)>, AllocError> {
        let mut near = Vec::new(alloc);
        for number in list_at(self.conflicts.as_slice(), place) {
            let listed = list_at(self.listed.as_slice(), *number);
            self.push_near(&mut near, listed, place)?;
        }
        near.sort_unstable();
        Ok(near)
    }

    /// The first of the places that are listed under a choice, if it comes before one, at which a conflict stands all
    /// whose other choices the conflict at this one has.
    pub(crate) fn under(&self, number: usize, place: usize) -> Option<usize> {
        let own = list_at(self.conflicts.as_slice(), place);
        for earlier in list_at(self.listed.as_slice(), number) {
            if *earlier >= place {
                return None;
            }
            let old = list_at(self.conflicts.as_slice(), *earlier);
            if matches!(lacked(old, own), Lacking::One(one) if one == number) {
                return Some(*earlier);
            }
        }
        None
    }
}
