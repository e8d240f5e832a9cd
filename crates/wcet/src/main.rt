//! The commands of the tool.
#![tactic(auto)]

mod answers;
mod bound;
mod chain;
#[cfg(test)]
mod chain_tests;
mod costs;
#[cfg(test)]
mod facts_tests;
#[cfg(test)]
mod hardware_tests;
mod loading;
mod opening;
mod optimum;
mod running;
mod serve;
#[cfg(test)]
mod serve_facts_tests;
#[cfg(test)]
mod serve_tests;
#[cfg(test)]
mod tests;
mod words;
mod work;

use answers::{Answer, finish};
use std::alloc::{AllocError, Global};
use std::env;
use std::process::ExitCode;
use wc_io::{FileHouse, FileSink};
use words::is_word;

/// How a command ended, as the program's exit status.
pub type Status = u8;

// The words after the program's name; none of them where one isn't UTF-8.
fn command_words(rt: &HostRuntime, alloc: Global) -> Result<Vec<String>, AllocError> {
    match env::args(rt) {
        Ok(args) => args.skip(1).collect(alloc),
        Err(_) => Ok(Vec::new(alloc)),
    }
}

fn main(rt: HostRuntime) -> ExitCode {
    let alloc = rt.alloc();
    let mut house = FileHouse::new(alloc, rt);
    let mut out = FileSink::new(rt.stdout());
    let status = match command_words(&rt, alloc) {
        Ok(words) => match words.as_slice() {
            [command, ..] if is_word(command, "serve") => {
                serve::serve(&rt, alloc, &words, &mut house, &mut out)
            }
            _ => bound::bound_once(&rt, alloc, &words, &mut house, &mut out),
        },
        Err(AllocError) => finish(&mut out, "", &Answer::Memory),
    };
    ExitCode::from(status)
}
