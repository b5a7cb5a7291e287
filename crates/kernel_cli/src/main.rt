//! `ipyflow`: a notebook kernel whose answers are proved, over standard input and output.
#![tactic(auto)]

mod law;
mod serve;
mod status;
#[cfg(test)]
mod tests;
mod words;

use flow_io::{StdSink, StdSource};
use serve::ipyflow;
use status::Status;
use std::env;
use std::io::{self, BufReader, ErrorKind};
use std::process::ExitCode;
use std::rt::Env;

fn main(rt: HostRuntime) -> ExitCode {
    ExitCode::from(run(&rt).code())
}

// A word that is not UTF-8 has no shape.
fn run(rt: &(impl Env + Input + Print + AllocGlobal)) -> Status {
    let alloc = rt.alloc();
    let mut args = match env::args(rt) {
        Ok(args) => args,
        Err(e) if e.kind() == ErrorKind::OutOfMemory => return Status::NoMemory,
        Err(_) => return Status::Usage,
    };
    let _ = args.next();
    let Ok(words) = args.collect::<Vec<String>>(alloc) else {
        return Status::NoMemory;
    };
    let Ok(reader) = BufReader::new(alloc, rt.reader()) else {
        return Status::NoMemory;
    };
    let mut source = StdSource::new(reader);
    let mut sink = StdSink::new(io::writer(rt));
    ipyflow(alloc, &words, &mut source, &mut sink)
}
