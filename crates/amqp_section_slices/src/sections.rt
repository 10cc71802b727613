//! Sections as bytes.
ghost use Rattle.std.specs.Prelude.{◌≡◌, ◌-◌, ◌≤◌, ◌<◌, ℕ, [], length, None, IfOk, IfErr, IfSome, MatchOption};
ghost use Rattle.std.specs.Iterator.{at_most};
ghost use Rattle.amqp_lookahead.specs.Sections.{IsSectionAhead};
ghost use Rattle.amqp_section_slices.specs.Kinds.{code_of};
ghost use Rattle.amqp_section_slices.specs.Slices.{BeginsWithSection, IsNoSection};

use crate::SectionKind;
use amqp_lengths::term_len_located;
use amqp_lookahead::Input;
use amqp_wire::{Error, Refusal};
use std::marker::Model;

/// A section of a message: its kind, and its bytes, from its descriptor on.
#[derive(Clone, Copy, Debug, PartialEq, Eq)]
pub struct Section<'a> {
    /// Its kind.
    pub kind: SectionKind,
    /// Its bytes: the whole described value, as it stands in the message.
    pub bytes: &'a [u8],
}

/// Returns the section at the start of the input, and the bytes after it; or `None` if the input is empty. No value is made of the section.
/// Its bytes are one whole term, but what is in it may not be of the section's type. The call doesn't allocate.
///
/// # Errors
///
/// The error of `amqp_lengths::term_len_located` if the input begins with no term, and `NotSection` at byte 0 if it begins with a term that
/// is no section.
pub fn split_section(input: &[u8]) -> Result<Option<(Section<'_>, &[u8])>, Refusal>
    ensures found { IfOk result (λ next. MatchOption next (input.now ≡ [])
        (λ s. BeginsWithSection input.now s.0.kind s.0.bytes.now s.1.now)) }
    ensures shorter { IfOk result (λ next. IfSome next (λ s. length s.1.now < length input.now)) }
    ensures refused { IfErr result (λ r. IsNoSection input.now r.error (length input.now - r.at)) }
    ensures within { IfErr result (λ r. r.at ≤ length input.now) }
    ensures some { IfErr result (λ _. 0 < length input.now) }
{
    if input.is_empty() {
        return Ok(None);
    }
    let len = term_len_located(input)?;
    let Some(kind) = kind_ahead(input) else {
        return Err(Refusal {
            error: Error::NotSection,
            at: 0,
        });
    };
    let (bytes, rest) = input.split_at(len);
    Ok(Some((Section { kind, bytes }, rest)))
}

// The kind of the section whose descriptor comes next.
fn kind_ahead(input: &[u8]) -> Option<SectionKind>
    ensures { MatchOption result ((c : ℕ) → IsSectionAhead input.now c → ⊥) (λ kind. IsSectionAhead input.now (code_of kind)) }
{
    let mut ahead = Input::new(input);
    match ahead.section_ahead() {
        Ok(code) => kind_of(code),
        Err(_) => {
            let _left = ahead.unread();
            unreachable!()
        }
    }
}

// The kind of the section with this code, if there is one.
fn kind_of(code: Option<u8>) -> Option<SectionKind>
    ensures some { IfSome code (λ c. MatchOption result (0x70 ≤ c → c ≤ 0x78 → ⊥) (λ kind. code_of kind ≡ c)) }
    ensures none { code ≡ None → result ≡ None }
{
    match code {
        Some(code) => SectionKind::of_code(code),
        None => None,
    }
}

/// The sections of a message one after another, each as its bytes. If no section comes next, the last item is the error of `split_section`,
/// with its place from the start of the message.
#[derive(Drop)]
pub struct Sections<'a> {
    rest: &'a [u8],
    // How many bytes of the message are before them.
    taken: usize,
}

impl<'a> Model for Sections<'a> {
    ghost use Rattle.std.specs.Prelude.{◌+◌, ◌^◌, ◌<◌, length};
    ghost use Rattle.amqp_section_slices.specs.Slices.{Remaining};

    ghost Value = { Remaining };

    ghost view = { λ s. record { rest = s.rest.now; taken = s.taken } };

    ghost invariant = { λ s. s.taken + length s.rest.now < 2 ^ 64 };
}

impl<'a> Sections<'a> {
    /// Returns the sections of the message.
    pub fn new(message: &'a [u8]) -> Sections<'a>
        ensures { result ≡ record { rest = message.now; taken = 0 } }
    {
        Sections {
            rest: message,
            taken: 0,
        }
    }

    /// Returns the bytes of the sections that were not yet returned. After an error there are none.
    pub fn rest(&self) -> &'a [u8]
        ensures { result.now ≡ self.now.rest }
    {
        self.rest
    }
}

impl<'a> Iterator for Sections<'a> {
    type Item = Result<Section<'a>, Refusal>;

    ghost use Rattle.std.specs.Prelude.{◌≡◌, ◌+◌, ◌-◌, [], length, MatchOption, MatchResult};
    ghost use Rattle.std.specs.Iterator.{at_most};
    ghost use Rattle.amqp_section_slices.specs.Slices.{BeginsWithSection, IsNoSection};

    ghost next_gives = { λ s item t. MatchOption item (s.rest ≡ []) (λ r. MatchResult r
        (λ x. BeginsWithSection s.rest x.kind x.bytes.now t.rest × (t.taken + length t.rest ≡ s.taken + length s.rest))
        (λ x. IsNoSection s.rest x.error ((s.taken + length s.rest) - x.at) × (t.rest ≡ []))) };

    ghost remaining = { λ s. at_most (length s.rest) };

    fn next(&mut self) -> Option<Result<Section<'a>, Refusal>> {
        match split_section(self.rest) {
            Ok(Some((section, rest))) => {
                self.taken += section.bytes.len();
                self.rest = rest;
                Some(Ok(section))
            }
            Ok(None) => None,
            Err(refusal) => {
                self.rest = &[];
                Some(Err(Refusal {
                    error: refusal.error,
                    at: self.taken + refusal.at,
                }))
            }
        }
    }
}
