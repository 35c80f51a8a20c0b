//! Whole runs as data. Each folder of `data/rows` is a row: its file `words` has the words of a command line, one on a line. For each row, in the
//! order of their names, the program makes the top call over the machine's files, and prints what it answered. Behind the rows it prints what
//! rewritten class files mean (`meanings`).
#![tactic(auto)]

mod meanings;
mod same;

use deuce::Open;
use deuce::listing::class_paths;
use deuce::top::deuce;
use deuce_io::{Folder, MemSink, RealFolder, names_in};
use jmodel::Bytes;
use meanings::print_meanings;
use std::alloc::{AllocError, Global};
use std::rt::Runtime;
use std::thread::Threads;
use std::{fs, io};

/// How many lanes a script has at most, each with a gate.
const LANES: usize = 16;

fn main(rt: HostRuntime) -> io::Result<()> {
    for name in &names_in(&rt, rt.alloc(), "rows")? {
        print_row(&rt, rt.alloc(), name.as_str())?;
    }
    print_meanings(&rt, rt.alloc())
}

/// Makes the top call of a row, and prints its name, its status, what it wrote, and the files that it put into the row's folder `out`.
fn print_row<R: Runtime + AllocGlobal + Threads + Sync>(
    rt: &R,
    alloc: Global,
    name: &str,
) -> io::Result<()> {
    let words = words_of(rt, alloc, name)?;
    let mut folder = RealFolder::new(alloc, rt);
    let (status, written) = called(rt, alloc, words.as_slice(), &mut folder)?;
    let text = str::from_utf8(written.as_slice()).unwrap_or("no text\n");
    print!(rt; "== {name}\nstatus {status}\n{text}")?;
    print_all_put(rt, alloc, &mut folder, name)
}

/// The status of the top call on words, and what it writes.
fn called<R: Threads + Sync, F: Folder>(
    rt: &R,
    alloc: Global,
    words: &[String],
    folder: &mut F,
) -> Result<(u8, Bytes), AllocError> {
    let mut out = MemSink::new(alloc, 64);
    let mut gates = vec![in alloc; Open; LANES]?;
    let status = deuce(rt, alloc, words, folder, &mut out, &mut gates);
    Ok((status, out.written))
}

/// Prints the files that a row put, in the order of their paths.
fn print_all_put<R: Runtime + AllocGlobal, F: Folder>(
    rt: &R,
    alloc: Global,
    folder: &mut F,
    name: &str,
) -> io::Result<()> {
    let put = format!(in alloc; "rows/{name}/out")?;
    let Ok(files) = class_paths(alloc, folder, put.as_str()) else {
        return Ok(());
    };
    for file in &files {
        print_put(rt, alloc, name, file.as_str())?;
    }
    Ok(())
}

/// The words of a row's command line.
fn words_of<R: Runtime + AllocGlobal>(
    rt: &R,
    alloc: Global,
    name: &str,
) -> io::Result<Vec<String>> {
    let path = format!(in alloc; "rows/{name}/words")?;
    let text = fs::read_to_string(rt, path.as_str())?;
    let mut words = Vec::new(alloc);
    for line in text.lines() {
        words.push(String::from_str(alloc, line)?)?;
    }
    Ok(words)
}

/// Prints the path of a file that a row put, and whether it has the bytes of the file at the same path in the row's folder `wanted`, where there is one.
fn print_put<R: Runtime + AllocGlobal>(
    rt: &R,
    alloc: Global,
    name: &str,
    file: &str,
) -> io::Result<()> {
    let put = format!(in alloc; "rows/{name}/out/{file}")?;
    let found = fs::read(rt, put.as_str())?;
    let wanted = format!(in alloc; "rows/{name}/wanted/{file}")?;
    match fs::read(rt, wanted.as_str()) {
        Ok(bytes) if bytes == found => println!(rt; "put {file} as wanted"),
        Ok(_) => println!(rt; "put {file} otherwise than wanted"),
        Err(_) => println!(rt; "put {file}"),
    }
}
