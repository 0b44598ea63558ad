// The slices of a requirement line.

ghost use Rattle.std.specs.Prelude.{◌≡◌, IfOk};
ghost use Rattle.pep508.specs.Slices as spec;

use crate::cuts::{cut_before, cut_behind, cut_comment, cut_name};
use crate::parts::{begins_with, cut_ending};
use lists::{Text, cut_lead, cut_tail};
use std::alloc::{AllocError, Global};
use std::marker::Model;

/// The slices of a line, lent from it.
#[derive(Drop)]
pub(crate) struct Slices<'a> {
    pub(crate) lead: &'a str,
    pub(crate) name: &'a str,
    pub(crate) gap1: &'a str,
    pub(crate) extras: &'a str,
    pub(crate) gap2: &'a str,
    pub(crate) version: &'a str,
    pub(crate) gap3: &'a str,
    pub(crate) marker: &'a str,
    pub(crate) gap4: &'a str,
    pub(crate) comment: &'a str,
    pub(crate) end: &'a str,
}

impl<'a> Model for Slices<'a> {
    ghost use Rattle.pep508.specs.Slices as spec;

    ghost Value = { spec.Slices };

    ghost view = { λ s. record {
      lead = s.lead.now;
      name = s.name.now;
      gap1 = s.gap1.now;
      extras = s.extras.now;
      gap2 = s.gap2.now;
      version = s.version.now;
      gap3 = s.gap3.now;
      marker = s.marker.now;
      gap4 = s.gap4.now;
      comment = s.comment.now;
      end = s.end.now;
    } };
}

impl Slices<'_> {
    /// The slices joined, with another version part.
    pub(crate) fn joined_with(&self, alloc: Global, version: &str) -> Result<Text, AllocError>
        ensures { IfOk result
            (λ text. text ≡ spec.joined (spec.with_version version.now self.now)) }
    {
        let parts = [
            self.lead,
            self.name,
            self.gap1,
            self.extras,
            self.gap2,
            version,
            self.gap3,
            self.marker,
            self.gap4,
            self.comment,
            self.end,
        ];
        Ok(Text::from_string(parts.concat(alloc)?))
    }
}

/// Extras up to the first `]`, the space before them, and what follows; without extras it is the whole.
fn cut_extras(text: &str) -> (&str, &str, &str)
    ensures gap { result.0.now ≡ spec.extras_gap text.now }
    ensures extras { result.1.now ≡ spec.extras_part text.now }
    ensures rest { result.2.now ≡ spec.behind_extras text.now }
{
    let (gap, bracket) = cut_lead(text);
    if !begins_with(b'[', bracket) {
        return ("", "", text);
    }
    let (extras, rest) = cut_behind(b']', bracket);
    (gap, extras, rest)
}

/// The slices of a text that no space leads, with what stands around it.
#[tactic(auto, unfolding(crate::specs::Slices::slices_with))]
pub(crate) fn slices_with<'a>(
    lead: &'a str,
    text: &'a str,
    comment: &'a str,
    end: &'a str,
) -> Slices<'a>
    ensures { result ≡ spec.slices_with lead.now text.now comment.now end.now }
{
    let (name, behind_name) = cut_name(text);
    let (gap1, extras, rest) = cut_extras(behind_name);
    let (version_field, marker_field) = cut_before(b';', rest);
    let (version_field, tail) = cut_tail(version_field);
    let (gap2, version) = cut_lead(version_field);
    let (marker, marker_tail) = cut_tail(marker_field);
    let (gap3, gap4) = if marker_field.is_empty() {
        ("", tail)
    } else {
        (tail, marker_tail)
    };
    Slices {
        lead,
        name,
        gap1,
        extras,
        gap2,
        version,
        gap3,
        marker,
        gap4,
        comment,
        end,
    }
}

/// The slices of a line.
#[tactic(auto, unfolding(crate::specs::Slices::slices_of))]
pub(crate) fn slices_of(line: &str) -> Slices<'_>
    ensures { result ≡ spec.slices_of line.now }
{
    let (content, end) = cut_ending(line);
    let (head, comment) = cut_comment(content);
    let (lead, text) = cut_lead(head);
    slices_with(lead, text, comment, end)
}
