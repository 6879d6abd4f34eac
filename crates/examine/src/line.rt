// A session that is being run, and a line of it.
use crate::failure::Failure;
use fddevs::refusal::Refusal;
use report::words::{Refused, Rule};
use session::command::{Command, Malformed, Source};
use session::parse::parse;
use std::{fmt, fs};

#[derive(Clone, Copy)]
pub struct Session<'a> {
    pub rt: &'a HostRuntime,
    pub name: &'a str,
    pub text: &'a str,
}

// Lines are counted from 1.
#[derive(Clone, Copy)]
pub struct Line<'a> {
    pub rt: &'a HostRuntime,
    pub session: &'a str,
    pub number: usize,
}

impl<'a> Session<'a> {
    // The line behind the first k.
    pub fn line(self, k: usize) -> Line<'a> {
        Line {
            rt: self.rt,
            session: self.name,
            number: k.saturating_add(1),
        }
    }
}

impl fmt::Display for Line<'_> {
    fn fmt<W: fmt::Write>(&self, f: &mut fmt::Formatter<W>) -> fmt::Result {
        write!(f, "{}:{}", self.session, self.number)
    }
}

impl Line<'_> {
    // The failure of a line, and why.
    fn failure<T, W: fmt::Display + Drop>(self, why: W) -> Result<T, Failure> {
        Err(Failure::Told(format!(in self.rt.alloc(); "{self}: {why}")?))
    }

    // The failure of a line that is not as it should be.
    pub fn malformed<T>(self, what: Malformed) -> Result<T, Failure> {
        self.failure(what.expected())
    }

    // The command of the line, if it has one.
    pub fn command(self, text: &str) -> Result<Option<Command>, Failure> {
        parse(self.rt.alloc(), text).or_else(|what| self.malformed(what))
    }

    // The bytes of a file that the line names or writes out.
    pub fn bytes(self, source: Source) -> Result<Vec<u8>, Failure> {
        match source {
            Source::Bytes(bytes) => Ok(bytes),
            Source::Path(path) => fs::read(self.rt, path.as_str()).or_else(|why| self.failure(
                format_args!("{path}: {why}"),
            )),
        }
    }

    // Prints the answer to a command that is refused or not.
    pub fn print_vetted(self, command: &str, answer: Result<(), Refusal>) -> Result<(), Failure> {
        let number = self.number;
        match answer {
            Ok(()) => println!(self.rt; "{number} {command}: ok")?,
            Err(refusal) => {
                let refused = Refused(refusal);
                let rule = Rule(refusal);
                println!(self.rt; "{number} {command}: {refused}")?;
                println!(self.rt; "  {rule}")?;
            }
        }
        Ok(())
    }
}
