//! The outside, as the program sees it: a folder of files, and a sink for output.
//!
//! [`Folder`] and [`Sink`] are the traits, [`MemFolder`] and [`MemSink`] keep them in memory, [`RealFolder`] and
//! [`StdSink`] are the machine's. What a disk or a terminal holds is in no contract: the last two tell nothing of
//! content.
//!
//! A caller under `F: Folder, O: Sink`, with `folder: &mut F` and `out: &mut O`, reads the ghost members so, where
//! `.old` is the folder or the sink before the call and `.new` after it:
//!
//! - `F.seen folder.new` is what the folder tells (specs/Seen.antt). Its `faults` and `put_faults` count the lists and
//!   reads that failed, and the puts. Its `failed` is the last call that failed, as `Some (read_of path)`,
//!   `Some (list_of dir)` or `Some (put_of path)`. Its `files` is `Some` of the files where they are told, each path
//!   with its content (specs/Files.antt).
//! - `O.written out.new` is `Some` of the bytes written, where they are told. `O.faults out.new` counts the faults of
//!   the sink, and `O.shortages out.new` the writes that ended for want of memory.
//! - No count falls. `Rose before now` (specs/Fault.antt) says that one rose, or that it stands at the last value of a
//!   counter of 64 bits.
//!
//! A call that answers `Failed` has `HasFailed before now last call`: its count rose, and it is the last that failed.
//! So a caller that passes an error on by `?` shows
//! `IsErrOf result IoEnd.Failed → Rose (F.seen folder.old).faults (F.seen folder.new).faults` with no proof of its own.
//! `list` and `read` keep the files, and `put` sets one path by `with_content`. A clause on content takes the files
//! as `ForSome (F.seen folder.old).files (λ told. ..)`. The laws of specs/Told.antt join several calls: `came_whole` says
//! that a file of which fewer bytes came than were asked for came whole, `written_on` is the step of a loop over
//! `write`, and `told_twice` joins two puts. src/tests.rt has both loops, proved.
#![tactic(auto)]

pub mod end;
pub mod failed_call;
pub mod folder;
mod listing;
mod machine_names;
pub mod memory_folder;
pub mod memory_sink;
pub mod real_folder;
pub mod sink;
pub mod std_sink;

pub use end::IoEnd;
pub use failed_call::{CallKind, FailedCall};
pub use folder::{Folder, Item};
pub use machine_names::names_in;
pub use memory_folder::MemFolder;
pub use memory_sink::MemSink;
pub use real_folder::RealFolder;
pub use sink::Sink;
pub use std_sink::StdSink;
