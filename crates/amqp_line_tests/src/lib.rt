//! Tests of the program's engine over text in memory and over readers and writers. The answers to the program's lines are in the files of
//! `amqp_worked_rows`.
#![tactic(auto)]

#[cfg(test)]
mod lines;
