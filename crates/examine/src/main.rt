// examine SESSION: reads a session, one command a line, and prints an answer for each.
#![tactic(auto)]

mod banks;
mod calls;
mod failure;
mod line;

use crate::banks::run_session;
use crate::failure::Failure;
use crate::line::Session;
use std::process::ExitCode;
use std::{env, fs, io};

fn read(rt: &HostRuntime, path: &str) -> Result<String, Failure> {
    match fs::read_to_string(rt, path) {
        Ok(text) => Ok(text),
        Err(why) => Err(Failure::Told(format!(in rt.alloc(); "{path}: {why}")?)),
    }
}

// Runs the session that the first argument names, or the one on standard input.
fn run(rt: &HostRuntime) -> Result<(), Failure> {
    let path = env::args(rt)?.nth(1);
    let text = match &path {
        Some(path) => read(rt, path.as_str())?,
        None => io::read_to_string(rt.alloc(), rt.stdin())?,
    };
    run_session(Session {
        rt,
        name: path.as_deref().unwrap_or("standard input"),
        text: text.as_str(),
    })
}

fn main(rt: HostRuntime) -> ExitCode {
    match run(&rt) {
        Ok(()) => ExitCode::SUCCESS,
        Err(failure) => {
            let _ = eprintln!(rt; "examine: {failure}");
            ExitCode::FAILURE
        }
    }
}
