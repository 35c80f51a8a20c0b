//! The call of a folder that failed last.
ghost use Rattle.std.specs.Prelude.{◌≡◌, ◌≤◌, Some};
ghost use Rattle.std.specs.Option.{option_map};
ghost use Rattle.deuce_io.specs.Fault.{Rose, next_count, call_of, seen_call};

use crate::end::IoEnd;
use std::alloc::Global;

/// What a call of a folder was.
#[derive(Clone, Copy, PartialEq, Eq)]
pub enum CallKind {
    List,
    Read,
    Put,
}

/// A call of a folder that failed.
#[derive(Drop)]
pub struct FailedCall {
    pub kind: CallKind,
    /// The path that it was given.
    pub path: String,
}

/// Counts a fault, and keeps this call as the last that failed. `NoMemory` where there is none to keep its
/// path; then the last one stays.
pub(crate) fn fail(
    alloc: Global,
    count: &mut u64,
    last: &mut Option<FailedCall>,
    kind: CallKind,
    path: &str,
) -> IoEnd
    ensures counted { count.new ≡ next_count count.old }
    ensures no_less { count.old ≤ count.new }
    ensures rose { Rose count.old count.new }
    ensures failed { result ≡ IoEnd.Failed → option_map seen_call last.new ≡ Some (call_of kind path.now) }
    ensures no_memory { result ≡ IoEnd.NoMemory → last.new ≡ last.old }
{
    *count = count.saturating_add(1);
    match String::from_str(alloc, path) {
        Ok(path) => {
            *last = Some(FailedCall { kind, path });
            IoEnd::Failed
        }
        Err(_) => IoEnd::NoMemory,
    }
}
