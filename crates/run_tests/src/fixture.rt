//! The example's class, and runs of it over folders and sinks in memory.
use deuce::Open;
use deuce::top::deuce;
use deuce_io::{Folder, IoEnd, MemFolder, MemSink};
use jmodel::Bytes;
use std::alloc::{AllocError, Global};
use std::thread::Threads;

/// The class of the example, as a compiler wrote it.
pub const COUNTER: [u8; 201] = [
    0xca, 0xfe, 0xba, 0xbe, 0x00, 0x00, 0x00, 0x31, 0x00, 0x0e, 0x07, 0x00, 0x02, 0x01, 0x00, 0x07,
    0x43, 0x6f, 0x75, 0x6e, 0x74, 0x65, 0x72, 0x07, 0x00, 0x04, 0x01, 0x00, 0x10, 0x6a, 0x61, 0x76,
    0x61, 0x2f, 0x6c, 0x61, 0x6e, 0x67, 0x2f, 0x4f, 0x62, 0x6a, 0x65, 0x63, 0x74, 0x01, 0x00, 0x01,
    0x6e, 0x01, 0x00, 0x01, 0x49, 0x01, 0x00, 0x03, 0x69, 0x6e, 0x63, 0x01, 0x00, 0x03, 0x28, 0x29,
    0x49, 0x01, 0x00, 0x04, 0x43, 0x6f, 0x64, 0x65, 0x09, 0x00, 0x01, 0x00, 0x0b, 0x0c, 0x00, 0x05,
    0x00, 0x06, 0x01, 0x00, 0x19, 0x52, 0x75, 0x6e, 0x74, 0x69, 0x6d, 0x65, 0x56, 0x69, 0x73, 0x69,
    0x62, 0x6c, 0x65, 0x41, 0x6e, 0x6e, 0x6f, 0x74, 0x61, 0x74, 0x69, 0x6f, 0x6e, 0x73, 0x01, 0x00,
    0x12, 0x4c, 0x6f, 0x72, 0x67, 0x2f, 0x64, 0x65, 0x75, 0x63, 0x65, 0x2f, 0x41, 0x74, 0x6f, 0x6d,
    0x69, 0x63, 0x3b, 0x00, 0x21, 0x00, 0x01, 0x00, 0x03, 0x00, 0x00, 0x00, 0x01, 0x00, 0x08, 0x00,
    0x05, 0x00, 0x06, 0x00, 0x00, 0x00, 0x01, 0x00, 0x09, 0x00, 0x07, 0x00, 0x08, 0x00, 0x02, 0x00,
    0x09, 0x00, 0x00, 0x00, 0x16, 0x00, 0x02, 0x00, 0x00, 0x00, 0x00, 0x00, 0x0a, 0xb2, 0x00, 0x0a,
    0x04, 0x60, 0x59, 0xb3, 0x00, 0x0a, 0xac, 0x00, 0x00, 0x00, 0x00, 0x00, 0x0c, 0x00, 0x00, 0x00,
    0x06, 0x00, 0x01, 0x00, 0x0d, 0x00, 0x00, 0x00, 0x00,
];

pub const THREE_CALLS: &[u8] =
    b"{\"form\":1,\"lanes\":1,\"phases\":[{\"lanes\":[[{\"call\":\"Counter.inc()I\",\"args\":[]},{\"call\":\"Counter.inc()I\",\"args\":[]},{\"call\":\"Counter.inc()I\",\"args\":[]}]]}]}";

pub const ONE_CALL: &[u8] =
    b"{\"form\":1,\"lanes\":1,\"phases\":[{\"lanes\":[[{\"call\":\"Counter.inc()I\",\"args\":[]}]]}]}";

/// How many lanes a script has at most, each with a gate.
pub const LANES: usize = 16;

/// The words `run d s`.
pub const RUN: [&str; 3] = ["run", "d", "s"];

/// The words `rewrite d o`.
pub const REWRITE: [&str; 3] = ["rewrite", "d", "o"];

/// A folder with one class file and a script.
pub fn folder_of(alloc: Global, class: &[u8], script: &[u8]) -> Result<MemFolder, IoEnd> {
    let mut folder = MemFolder::new(alloc);
    folder.put("d/Counter.class", class)?;
    folder.put("s", script)?;
    Ok(folder)
}

/// Words as texts of their own.
pub fn texts(alloc: Global, words: [&str; 3]) -> Result<Vec<String>, AllocError> {
    let mut list = Vec::new(alloc);
    for word in words {
        list.push(String::from_str(alloc, word)?)?;
    }
    Ok(list)
}

/// The status of a top call on three words, and what the sink has then.
pub fn call<R: Threads + Sync>(
    rt: &R,
    alloc: Global,
    words: [&str; 3],
    folder: &mut MemFolder,
    mut out: MemSink,
) -> Result<(u8, Bytes), AllocError> {
    let list = texts(alloc, words)?;
    let mut gates = vec![in alloc; Open; LANES]?;
    let status = deuce(rt, alloc, list.as_slice(), folder, &mut out, &mut gates);
    Ok((status, out.written))
}

/// Whether a top call over a folder ends with this status and writes this text. What the call put
/// is in the folder then.
pub fn ends_with<R: Threads + Sync>(
    rt: &R,
    alloc: Global,
    words: [&str; 3],
    folder: &mut MemFolder,
    status: u8,
    text: &str,
) -> Result<bool, AllocError> {
    let (found, written) = call(rt, alloc, words, folder, MemSink::new(alloc, 64))?;
    Ok(found == status && written.as_slice() == text.as_bytes())
}

/// The same of a folder that isn't looked at behind the call.
pub fn gives<R: Threads + Sync>(
    rt: &R,
    alloc: Global,
    words: [&str; 3],
    mut folder: MemFolder,
    status: u8,
    text: &str,
) -> Result<bool, AllocError> {
    ends_with(rt, alloc, words, &mut folder, status, text)
}

/// Whether a folder has a file.
pub fn has(folder: &mut MemFolder, path: &str) -> bool {
    folder.read(path, 2000).is_ok()
}
