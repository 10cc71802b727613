//! What is printed of the blocks, one after another.
use crate::json::json_of_block;
use crate::part::Part;
use crate::text;
use amqp_blocks::{Block, Source};
use amqp_inspect_io::{Answer, Colours, Input, PIECE, Progress, page, write_element};
use amqp_outlines::saving_of;
use std::alloc::Global;
use std::fmt::Write as _;
use std::io;
use std::io::Write;

/// What has been printed.
#[derive(Drop)]
pub(crate) struct Printer {
    answer: Answer,
    colours: Colours,
    progress: Progress,
    // Where the next block begins in the input.
    base: usize,
    // How many bytes fewer the canonical encodings have.
    saving: usize,
    all_is_well: bool,
    // What is printed next.
    out: String,
}

impl Printer {
    pub(crate) fn new(rt: &HostRuntime, answer: Answer) -> Printer {
        Printer {
            answer,
            colours: Colours::of_output(rt),
            progress: Progress::new(rt),
            base: 0,
            saving: 0,
            all_is_well: true,
            out: String::new(rt.alloc()),
        }
    }

    /// Whether no block had a fault.
    pub(crate) fn all_is_well(&self) -> bool {
        self.all_is_well
    }

    /// Prints what comes before the blocks.
    pub(crate) fn begin(&mut self, rt: &HostRuntime) -> Result<(), anyhow::Error> {
        if self.answer == Answer::Html {
            print!(rt; "{}", page::HEAD)?;
        }
        Ok(())
    }

    /// Prints the blocks that the rest of the input has.
    pub(crate) fn print(
        &mut self,
        rt: &HostRuntime,
        source: &mut Source,
        input: &mut Input,
    ) -> Result<(), anyhow::Error> {
        for _ in 0..u64::MAX {
            let rest = input.rest();
            let Some(block) = source.next_block(rest, input.is_end(), rt.alloc())? else {
                break;
            };
            self.write(rest, &block, rt.alloc())?;
            let len = block.len;
            drop(block);
            input.tell(len);
            self.base = self.base.saturating_add(len);
            self.flush(rt, PIECE)?;
        }
        self.flush(rt, 0)?;
        self.progress.tell(rt, self.base)
    }

    // Prints what has been written, if it has more than so many bytes.
    fn flush(&mut self, rt: &HostRuntime, most: usize) -> Result<(), anyhow::Error> {
        if self.out.len() > most {
            io::writer(rt).write_all(self.out.as_str().as_bytes())?;
            self.out.clear();
        }
        Ok(())
    }

    // Appends what is printed of a block.
    fn write(&mut self, input: &[u8], block: &Block, alloc: Global) -> Result<(), anyhow::Error> {
        let bytes = input.get(..block.len).unwrap_or(input);
        let part = Part {
            bytes,
            base: self.base,
            colours: self.colours,
        };
        match self.answer {
            Answer::Text => self.write_text(part, block)?,
            Answer::Json => {
                let line = json_of_block(part, block, alloc)?;
                self.out.push_str(line.as_str())?;
                self.out.push('\n')?;
            }
            Answer::Html => {
                let line = json_of_block(part, block, alloc)?;
                write_element(&mut self.out, bytes, line.as_str())?;
            }
        }
        self.all_is_well &= block.faults.is_empty();
        Ok(())
    }

    fn write_text(&mut self, part: Part<'_>, block: &Block) -> Result<(), anyhow::Error> {
        text::write_block(&mut self.out, part, block)?;
        let value = saving_of(part.bytes, block.value.as_slice());
        let message = saving_of(part.bytes, block.message.as_slice());
        self.saving = self.saving.saturating_add(value).saturating_add(message);
        Ok(())
    }

    /// Prints what comes behind the blocks.
    pub(crate) fn end(&mut self, rt: &HostRuntime) -> Result<(), anyhow::Error> {
        self.progress.end(rt)?;
        if self.answer == Answer::Html {
            print!(rt; "{}", page::END)?;
        }
        if self.saving > 0 {
            let plural = if self.saving == 1 { "" } else { "s" };
            write!(
                self.out,
                "canonical encodings have {} byte{plural} less\n",
                self.saving
            )?;
            self.flush(rt, 0)?;
        }
        Ok(())
    }
}
