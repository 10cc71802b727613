//! The program's arguments.
use amqp_catalogue::TypeName;
use amqp_faults::{Bounds, Form, Options};
use anyhow::bail;
use clap::{Arg, ArgGroup, ArgMatches, Command, arg, value_parser};
use std::alloc::{AllocError, Global};

const ABOUT: &str =
    "Tells what the bytes of AMQP 1.0 are: frames, a message, or a term of any type";

const USAGE: &str = "amqp-inspect [OPTIONS] < BYTES";

const AFTER_HELP: &str = "Without an option for what the input is, its first bytes decide.

The status is 0 if all is well, 1 if there is a fault, and 2 if the arguments are wrong.";

/// What is printed.
#[derive(Clone, Copy, Debug, PartialEq, Eq)]
pub enum Answer {
    /// Lines of text.
    Text,
    /// A line of JSON for each block.
    Json,
    /// A page for a browser.
    Html,
}

/// What the arguments ask for.
#[derive(Clone, Copy, Debug, PartialEq, Eq)]
pub struct Arguments {
    /// Whether the input is hexadecimal digits.
    pub hex: bool,
    /// What is printed.
    pub answer: Answer,
    /// What the input is to be read as.
    pub options: Options,
}

/// Returns the command line of the program. The names are those that `--type` takes.
pub fn command<'a>(names: &'a [&'a str], alloc: Global) -> Result<Command<'a>, AllocError> {
    let command = Command::new(alloc, "amqp-inspect")
        .about(ABOUT)
        .override_usage(USAGE)
        .after_help(AFTER_HELP);
    let command = with_forms(command, names, alloc)?;
    let command = with_answers(command, alloc)?;
    with_limits(command, alloc)
}

// What the input is.
fn with_forms<'a>(
    command: Command<'a>,
    names: &'a [&'a str],
    alloc: Global,
) -> Result<Command<'a>, AllocError> {
    let named = Arg::new(alloc, "type")
        .long("type")
        .value_name("NAME")
        .value_parser(names)
        .hide_possible_values(true)
        .help("One value of a type, as open, source or message-id");
    let forms = ArgGroup::new(alloc, "form")
        .arg("frames")?
        .arg("message")?
        .arg("strict")?
        .arg("term")?
        .arg("type")?;
    command
        .arg(
            arg!(in alloc; --frames "What one side of a connection sends: protocol headers and frames"),
        )?
        .arg(arg!(in alloc; --message "One message, as its sections"))?
        .arg(arg!(in alloc; --strict "One message, with its sections in the standard's order"))?
        .arg(arg!(in alloc; --term "One term of any type"))?
        .arg(named)?
        .group(forms)
}

// What is printed.
fn answers<'a>(alloc: Global) -> Result<ArgGroup<'a>, AllocError> {
    ArgGroup::new(alloc, "answer").arg("json")?.arg("html")
}

// How the input is written, and what is printed of it.
fn with_answers<'a>(command: Command<'a>, alloc: Global) -> Result<Command<'a>, AllocError> {
    command
        .arg(
            arg!(in alloc; --hex "The input is hexadecimal digits, with any white space, comments from # to the end of the line, and the offsets of xxd and tcpdump -x"),
        )?
        .arg(arg!(in alloc; --json "Print a line of JSON for each frame, section or term"))?
        .arg(arg!(in alloc; --html "Print a page for a browser, with the bytes beside the values"))?
        .group(answers(alloc)?)
}

// What frames and values may have at most.
fn with_limits<'a>(command: Command<'a>, alloc: Global) -> Result<Command<'a>, AllocError> {
    command
        .arg(
            arg!(in alloc; --"max-frame" <N> "The most bytes of a frame, at least 512; without it there is no limit").value_parser(
                value_parser!(u32).range(512..),
            ),
        )?
        .arg(
            arg!(in alloc; --nesting <N> "How deep values may nest, at most 128").value_parser(
                value_parser!(u32).range(..129),
            ),
        )?
        .arg(
            arg!(in alloc; --bytes <N> "The most bytes of a value; without it there is no limit").value_parser(
                value_parser!(u64),
            ),
        )?
        .arg(
            arg!(in alloc; --items <N> "The most items of a value; without it 65536, and four for each byte").value_parser(
                value_parser!(u64),
            ),
        )
}

impl Arguments {
    /// Returns what the matches of the command line ask for.
    pub fn new(matches: &ArgMatches<'_>) -> Result<Arguments, anyhow::Error> {
        Ok(Arguments {
            hex: matches.get_flag("hex"),
            answer: answer_of(matches),
            options: Options {
                form: form_of(matches)?,
                max_frame_size: matches.get_one::<u32>("max-frame").unwrap_or(u32::MAX),
                bounds: bounds_of(matches),
            },
        })
    }
}

fn form_of(matches: &ArgMatches<'_>) -> Result<Option<Form>, anyhow::Error> {
    if let Some(name) = matches.get_str("type") {
        return match TypeName::from_bytes(name.as_bytes()) {
            Some(named) => Ok(Some(Form::Type(named))),
            None => bail!("there is no type {name}"),
        };
    }
    let flags = [
        ("frames", Form::Frames),
        ("message", Form::Message),
        ("strict", Form::Strict),
        ("term", Form::Term),
    ];
    let given = flags.iter().find(|flag| matches.get_flag(flag.0));
    Ok(given.map(|flag| flag.1))
}

fn answer_of(matches: &ArgMatches<'_>) -> Answer {
    if matches.get_flag("json") {
        Answer::Json
    } else if matches.get_flag("html") {
        Answer::Html
    } else {
        Answer::Text
    }
}

fn bounds_of(matches: &ArgMatches<'_>) -> Bounds {
    Bounds {
        nesting: matches
            .get_one::<u32>("nesting")
            .unwrap_or(Bounds::DEFAULT.nesting),
        bytes: matches
            .get_one::<u64>("bytes")
            .unwrap_or(Bounds::DEFAULT.bytes),
        items: matches.get_one::<u64>("items"),
    }
}
