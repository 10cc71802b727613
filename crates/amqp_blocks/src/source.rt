//! What the input is, and its blocks one after another.
ghost use Rattle.std.specs.Prelude.{◌≡◌, ◌-◌, false, length, Some, IfOk, IfSome, IfNone};
ghost use Rattle.amqp_faults.specs.declared.options.Form.{Form};
ghost use Rattle.amqp_blocks.specs.Blocks.{BeginsInput, IsNext, IsSourceOf, IsAllTold};

use crate::block::Block;
use crate::frames::Frames;
use crate::message::Sections;
use crate::term::Term;
use amqp_descriptors::{is_section, type_at};
use amqp_faults::{Form, Options};
use std::alloc::{AllocError, Global};

/// The blocks of an input that are still to come.
#[derive(Drop)]
pub enum Source {
    /// Those of one direction of a connection.
    Frames(Frames),
    /// Those of a message.
    Message(Sections),
    /// That of a term, and one of what is behind it.
    Term(Term),
}

impl Source {
    /// Returns what the input is to be read as. Without a form, its first bytes tell. It is `None` if more bytes are needed for that, and the
    /// input doesn't end with these.
    pub fn new(
        options: &Options,
        input: &[u8],
        is_end: bool,
        alloc: Global,
    ) -> Result<Option<Source>, AllocError>
        ensures ahead { IfOk result (λ found. IfSome found (IsNext (length input.now))) }
        ensures form { (form : Form) → options.now.form ≡ Some form → IfOk result (λ found. IfSome found (IsSourceOf form)) }
        ensures none { IfOk result (λ found. IfNone found (is_end ≡ false)) }
    {
        let Some(form) = form_for(options.form, input, is_end) else {
            return Ok(None);
        };
        Source::of_form(form, options, input, is_end, alloc)
    }

    // An input of this form. It is `None` if more bytes are needed, since it has to be whole.
    fn of_form(
        form: Form,
        options: &Options,
        input: &[u8],
        is_end: bool,
        alloc: Global,
    ) -> Result<Option<Source>, AllocError>
        ensures form { IfOk result (λ found. IfSome found (IsSourceOf form)) }
        ensures ahead { IfOk result (λ found. IfSome found (IsNext (length input.now))) }
        ensures none { IfOk result (λ found. IfNone found (is_end ≡ false)) }
    {
        let bounds = options.bounds;
        Ok(match form {
            Form::Frames => {
                let frames = Frames::new(options.max_frame_size, bounds, alloc);
                Some(Source::Frames(frames))
            }
            _ if !is_end => None,
            Form::Message => Some(Source::Message(Sections::new(input, false, &bounds, alloc)?)),
            Form::Strict => Some(Source::Message(Sections::new(input, true, &bounds, alloc)?)),
            Form::Term => Some(Source::Term(Term::new(None, bounds))),
            Form::Type(named) => Some(Source::Term(Term::new(Some(named), bounds))),
        })
    }

    /// Returns the block that the rest of the input begins with, or `None` behind the last one, and if more bytes are needed. What is told of
    /// the block is in its bytes.
    pub fn next_block(
        &mut self,
        input: &[u8],
        is_end: bool,
        alloc: Global,
    ) -> Result<Option<Block>, AllocError>
        ensures block { IsNext (length input.now) self.old → IfOk result (λ found. IfSome found (BeginsInput input.now)) }
        ensures ahead { IsNext (length input.now) self.old
            → IfOk result (λ found. IfSome found (λ block. IsNext (length input.now - block.len) self.new)) }
        ensures none { IfOk result (λ found. IfNone found (IsAllTold input.now is_end)) }
    {
        match self {
            Source::Frames(frames) => frames.next_block(input, is_end, alloc),
            Source::Message(sections) => sections.next_block(input, alloc),
            Source::Term(term) => term.next_block(input, alloc),
        }
    }
}

// The form that is asked for, or else what the input seems to be.
fn form_for(asked: Option<Form>, input: &[u8], is_end: bool) -> Option<Form>
    ensures asked { IfSome asked (λ form. result ≡ Some form) }
    ensures none { IfNone result (is_end ≡ false) }
{
    match asked {
        Some(form) => Some(form),
        None => form_of(input, is_end),
    }
}

// What the input seems to be, if these bytes of it are enough to tell.
fn form_of(input: &[u8], is_end: bool) -> Option<Form>
    ensures { IfNone result (is_end ≡ false) }
{
    if input.len() < 8 && !is_end {
        return None;
    }
    if input.starts_with(b"AMQP") {
        return Some(Form::Frames);
    }
    if type_at(input, 0).is_some_and(is_section) {
        return Some(Form::Message);
    }
    if begins_with_frame(input) {
        return Some(Form::Frames);
    }
    if is_end { Some(Form::Term) } else { None }
}

// Whether the input seems to begin with a frame (Part 2, section 2.3.1). No term begins with two zeros. Otherwise the size is at least 8, the
// data offset at least 2 and not past the size, and the type 0 or 1. A described value may look like that, too, as a frame of more than four
// million bytes. So it is a frame only if the whole of it is there, or if what comes second is no descriptor's code.
fn begins_with_frame(input: &[u8]) -> bool {
    if input.starts_with(&[0, 0]) {
        return true;
    }
    let [a, b, c, d, data_offset, kind, ..] = input else {
        return false;
    };
    let size = u32::from_be_bytes([*a, *b, *c, *d]) as usize;
    let is_header = *data_offset >= 2
        && usize::from(*data_offset).saturating_mul(4) <= size
        && *kind <= 1;
    let is_described = matches!(*b, 0x44 | 0x53 | 0x80 | 0xa3 | 0xb3);
    is_header && (size <= input.len() || (*a == 0 && !is_described))
}
