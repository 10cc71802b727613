//! The colours of text on a terminal.
use std::env;
use std::io::IsTerminal;

/// What is written before a part of the text, and what ends its colour: sequences of a terminal (ECMA-48, section 8.3.117), or nothing.
#[derive(Clone, Copy, Debug, PartialEq, Eq)]
pub struct Colours {
    /// Before the first word of a block and the name of a type.
    pub heading: &'static str,
    /// Before the name of a field.
    pub name: &'static str,
    /// Before a default value.
    pub faint: &'static str,
    /// Before an encoding that isn't canonical.
    pub longer: &'static str,
    /// Before a fault.
    pub fault: &'static str,
    /// Behind each of these.
    pub end: &'static str,
}

impl Colours {
    /// No colours.
    pub const NONE: Colours = Colours {
        heading: "",
        name: "",
        faint: "",
        longer: "",
        fault: "",
        end: "",
    };

    const TERMINAL: Colours = Colours {
        heading: "\x1b[1m",
        name: "\x1b[36m",
        faint: "\x1b[2m",
        longer: "\x1b[33m",
        fault: "\x1b[31m",
        end: "\x1b[0m",
    };

    /// Returns the colours for standard output: none if it is no terminal, or if the environment has `NO_COLOR` with a value.
    pub fn of_output(rt: &HostRuntime) -> Colours {
        if rt.stdout().is_terminal() && !has_no_color(rt) {
            Colours::TERMINAL
        } else {
            Colours::NONE
        }
    }
}

fn has_no_color(rt: &HostRuntime) -> bool {
    match env::var(rt, "NO_COLOR") {
        Ok(value) => !value.is_empty(),
        Err(_) => false,
    }
}
