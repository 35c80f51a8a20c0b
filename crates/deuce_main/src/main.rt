//! Deuce STM: rewrites Java class files so that `@Atomic` methods run as transactions, and runs the rewritten code.
#![tactic(auto)]

use deuce::Open;
use deuce::top::deuce;
use deuce_io::{RealFolder, StdSink};
use std::io::ErrorKind;
use std::process::ExitCode;
use std::rt::Env;
use std::{env, io};

/// How many lanes a script has at most, each with a gate.
const LANES: usize = 16;

/// The status where memory runs out.
const NO_MEMORY: u8 = 10;

/// Hands the words after the program's name to the top call, with the machine's files and standard output.
fn main(rt: HostRuntime) -> ExitCode {
    let alloc = rt.alloc();
    let words = match words_after_name(&rt) {
        Ok(words) => words,
        Err(error) if error.kind() == ErrorKind::OutOfMemory => return ExitCode::from(NO_MEMORY),
        // A word that is no text is of no form.
        Err(_) => Vec::new(alloc),
    };
    let mut folder = RealFolder::new(alloc, &rt);
    let mut out = StdSink::new(&rt);
    let Ok(mut gates) = vec![in alloc; Open; LANES] else {
        return ExitCode::from(NO_MEMORY);
    };
    ExitCode::from(deuce(&rt, alloc, &words, &mut folder, &mut out, &mut gates))
}

fn words_after_name<R: Env + AllocGlobal>(rt: &R) -> io::Result<Vec<String>> {
    let mut words = Vec::new(rt.alloc());
    for word in env::args(rt)?.skip(1) {
        words.push(word)?;
    }
    Ok(words)
}
