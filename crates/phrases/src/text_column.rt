// Where in a text that was refused the part begins that doesn't read.

use pep440::Fault as SpecifierFault;
use pep508::{Cause, Name, is_name_byte};
use std::alloc::{AllocError, Global};

/// The number, from 1, of the character at which the part of a line begins that was refused for this cause.
pub fn column_of(alloc: Global, line: &str, cause: Cause) -> Result<usize, AllocError> {
    let start = behind_space(line, 0);
    let place = match cause {
        Cause::OddCharacter => odd_place(line),
        Cause::Continuation => line.chars().count().saturating_sub(1),
        Cause::BadName => bad_name_place(alloc, line, start)?,
        Cause::UrlRequirement => place_from(line, start, '@'),
        Cause::Specifier(fault) => clause_place(line, behind_extras(line, start), fault),
        Cause::BadMarker | Cause::MarkerTooDeep => {
            behind_space(line, place_from(line, start, ';').saturating_add(1))
        }
        _ => start,
    };
    Ok(place.saturating_add(1))
}

/// The same number of the clause of a set of specifiers.
pub fn clause_column(text: &str, fault: SpecifierFault) -> usize {
    clause_place(text, 0, fault).saturating_add(1)
}

/// Where the refused clause begins, of those that begin in this place, with a parenthesis or without.
fn clause_place(text: &str, from: usize, fault: SpecifierFault) -> usize {
    let mut place = behind_space(text, from);
    if is_at(text, place, '(') {
        place = behind_space(text, place.saturating_add(1));
    }
    let SpecifierFault::BadClause(number) = fault else {
        return place;
    };
    for _ in 1..number {
        let comma = place_from(text, place, ',');
        place = behind_space(text, comma.saturating_add(1));
    }
    place
}

/// Where the name is that doesn't read: that of the line, or one of the extras behind it.
fn bad_name_place(alloc: Global, line: &str, start: usize) -> Result<usize, AllocError> {
    let end = behind_name(line, start);
    let mut name = String::new(alloc);
    for letter in line.chars().skip(start).take(end.saturating_sub(start)) {
        name.push(letter)?;
    }
    match Name::read(alloc, name.as_str()) {
        Ok(_) => Ok(place_from(line, end, '[')),
        Err(Cause::OutOfMemory) => Err(AllocError),
        Err(_) => Ok(start),
    }
}

/// Where the first letter stands behind the letters of a name.
fn behind_name(text: &str, from: usize) -> usize {
    for (place, letter) in text.chars().enumerate() {
        if place >= from && !is_name_letter(letter) {
            return place;
        }
    }
    text.chars().count()
}

fn is_name_letter(letter: char) -> bool {
    match u8::try_from(letter) {
        Ok(byte) => is_name_byte(byte),
        Err(_) => false,
    }
}

/// Where the version part begins behind the name and its extras.
fn behind_extras(text: &str, start: usize) -> usize {
    let place = behind_space(text, behind_name(text, start));
    if !is_at(text, place, '[') {
        return place;
    }
    behind_space(text, place_from(text, place, ']').saturating_add(1))
}

/// Where the first letter from here on stands that is no space or tab.
fn behind_space(text: &str, from: usize) -> usize {
    for (place, letter) in text.chars().enumerate() {
        if place >= from && letter != ' ' && letter != '\t' {
            return place;
        }
    }
    text.chars().count()
}

/// Where the letter first stands from here on, or the end of the text.
fn place_from(text: &str, from: usize, wanted: char) -> usize {
    for (place, letter) in text.chars().enumerate() {
        if place >= from && letter == wanted {
            return place;
        }
    }
    text.chars().count()
}

fn is_at(text: &str, place: usize, wanted: char) -> bool {
    text.chars().nth(place) == Some(wanted)
}

/// Where the first letter stands that no line may have.
fn odd_place(line: &str) -> usize {
    for (place, letter) in line.chars().enumerate() {
        if is_odd(letter) {
            return place;
        }
    }
    0
}

fn is_odd(letter: char) -> bool {
    matches!(letter, '\u{85}' | '\u{2028}' | '\u{2029}')
        || (letter.is_ascii_control() && letter != '\t')
}
