//! The program `amqp_canon` reads lines `<type> <hex>` from standard input, and answers each by a line to standard output. The answer has
//! the value's canonical text, or the error for which it is refused (`amqp_lines::run`). The status is 0 if every answer is `ok`, as for no
//! lines, else 1.
#![tactic(auto)]

use amqp_lines::run;
use std::io;
use std::io::BufWriter;
use std::process::ExitCode;

fn main(rt: HostRuntime) -> ExitCode {
    let Ok(mut writer) = BufWriter::new(rt.alloc(), io::writer(&rt)) else {
        return ExitCode::FAILURE;
    };
    match run(rt.reader(), &mut writer, rt.alloc()) {
        Ok(true) => ExitCode::SUCCESS,
        Ok(false) | Err(_) => ExitCode::FAILURE,
    }
}
