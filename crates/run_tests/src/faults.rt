//! Folders and sinks that fail, and files over their limits.
use crate::fixture::{
    COUNTER, ONE_CALL, REWRITE, RUN, THREE_CALLS, call, ends_with, folder_of, gives, has,
};
use deuce_io::{Folder, IoEnd, MemFolder, MemSink};
use std::alloc::{AllocError, Global};
use std::test::Fail;
use std::thread::Threads;

/// Whether a call over a sink that takes eight bytes at a time and fails its second write ends with status 9, and the sink has this front.
fn is_cut<R: Threads + Sync>(
    rt: &R,
    alloc: Global,
    words: [&str; 3],
    front: &[u8],
) -> Result<bool, IoEnd> {
    let mut folder = folder_of(alloc, COUNTER.as_slice(), THREE_CALLS)?;
    let mut out = MemSink::new(alloc, 8);
    out.fail_writes.push(2)?;
    let (status, written) = call(rt, alloc, words, &mut folder, out)?;
    // the file of a rewriting is put before anything is printed
    let is_put = has(&mut folder, "o/Counter.class");
    Ok(status == 9 && written.as_slice() == front && is_put == (words[0] == "rewrite"))
}

#[test]
fn a_sink_that_fails_its_second_write(rt: HostRuntime) -> Result<(), Fail> {
    assert!(rt; is_cut(&rt, rt.alloc(), RUN, b"history ")?);
    assert!(rt; is_cut(&rt, rt.alloc(), REWRITE, b"classes ")?);
    Ok(())
}

#[test]
fn a_read_that_fails_is_named(rt: HostRuntime) -> Result<(), Fail> {
    let mut folder = folder_of(rt.alloc(), COUNTER.as_slice(), THREE_CALLS)?;
    folder.fail_reads.push(1)?;
    let line = "error 8 d/Counter.class\n";
    assert!(rt; gives(&rt, rt.alloc(), RUN, folder, 8, line)?);
    Ok(())
}

#[test]
fn a_put_that_fails_is_named(rt: HostRuntime) -> Result<(), Fail> {
    let mut folder = folder_of(rt.alloc(), COUNTER.as_slice(), THREE_CALLS)?;
    folder.fail_puts.push(3)?;
    let line = "error 11 o/Counter.class\n";
    assert!(rt; gives(&rt, rt.alloc(), REWRITE, folder, 11, line)?);
    Ok(())
}

/// A folder with empty files in folders.
fn nested(alloc: Global) -> Result<MemFolder, IoEnd> {
    let mut folder = MemFolder::new(alloc);
    for file in ["d/a-b/x/F", "d/a/x/F", "d/a/y/F", "s"] {
        folder.put(file, b"".as_slice())?;
    }
    Ok(folder)
}

/// Whether a run over folders in a folder names the one at this path, where the list of this
/// number fails.
fn list_fails_at<R: Threads + Sync>(
    rt: &R,
    alloc: Global,
    number: u64,
    path: &str,
) -> Result<bool, IoEnd> {
    let mut folder = nested(alloc)?;
    folder.fail_lists.push(number)?;
    let line = format!(in alloc; "error 8 {path}\n")?;
    Ok(gives(rt, alloc, RUN, folder, 8, line.as_str())?)
}

#[test]
fn folders_are_listed_level_by_level(rt: HostRuntime) -> Result<(), Fail> {
    for (number, path) in [
        (1, "d"),
        (2, "d/a"),
        (3, "d/a-b"),
        (4, "d/a/x"),
        (5, "d/a/y"),
        (6, "d/a-b/x"),
    ] {
        assert!(rt; list_fails_at(&rt, rt.alloc(), number, path)?, "{path}");
    }
    Ok(())
}

/// A folder with a file 17 levels down.
fn deep(alloc: Global) -> Result<MemFolder, IoEnd> {
    let mut folder = folder_of(alloc, COUNTER.as_slice(), THREE_CALLS)?;
    folder.put(
        "d/1/2/3/4/5/6/7/8/9/10/11/12/13/14/15/16/17/F",
        b"".as_slice(),
    )?;
    Ok(folder)
}

#[test]
fn a_folder_17_levels_down_is_not_listed(rt: HostRuntime) -> Result<(), Fail> {
    let mut folder = deep(rt.alloc())?;
    let line = "error 4 30 OverLimit depth 17\n";
    assert!(rt; ends_with(&rt, rt.alloc(), RUN, &mut folder, 4, line)?);
    assert_eq!(rt; folder.lists, 17);
    Ok(())
}

/// The example's class under the name Bounter.
fn renamed() -> [u8; 201] {
    let mut class = COUNTER;
    class[16] = b'B';
    class
}

/// A folder with two class files and a script.
fn two_classes(alloc: Global) -> Result<MemFolder, IoEnd> {
    let mut folder = folder_of(alloc, COUNTER.as_slice(), THREE_CALLS)?;
    folder.put("d/Bounter.class", renamed().as_slice())?;
    Ok(folder)
}

/// A folder with two class files, another file, and a script.
fn two_classes_and_a_text(alloc: Global) -> Result<MemFolder, IoEnd> {
    let mut folder = two_classes(alloc)?;
    folder.put("d/Aounter.text", b"".as_slice())?;
    Ok(folder)
}

/// Whether a run over two class files names the file at this path, where the read of this number
/// fails.
fn read_fails_at<R: Threads + Sync>(
    rt: &R,
    alloc: Global,
    number: u64,
    path: &str,
) -> Result<bool, IoEnd> {
    let mut folder = two_classes_and_a_text(alloc)?;
    folder.fail_reads.push(number)?;
    let line = format!(in alloc; "error 8 {path}\n")?;
    Ok(gives(rt, alloc, RUN, folder, 8, line.as_str())?)
}

#[test]
fn class_files_are_read_in_the_order_of_their_paths_and_then_the_script(
    rt: HostRuntime,
) -> Result<(), Fail> {
    for (number, path) in [(1, "d/Bounter.class"), (2, "d/Counter.class"), (3, "s")] {
        assert!(rt; read_fails_at(&rt, rt.alloc(), number, path)?, "{path}");
    }
    Ok(())
}

#[test]
fn each_file_is_read_once(rt: HostRuntime) -> Result<(), Fail> {
    let alloc = rt.alloc();
    let mut folder = two_classes_and_a_text(alloc)?;
    let (status, _) = call(&rt, alloc, RUN, &mut folder, MemSink::new(alloc, 64))?;
    assert_eq!(rt; (status, folder.reads), (0, 3));
    Ok(())
}

#[test]
fn a_put_that_fails_leaves_those_before_it(rt: HostRuntime) -> Result<(), Fail> {
    let mut folder = two_classes(rt.alloc())?;
    folder.fail_puts.push(5)?;
    let line = "error 11 o/Counter.class\n";
    assert!(rt; ends_with(&rt, rt.alloc(), REWRITE, &mut folder, 11, line)?);
    assert!(rt; has(&mut folder, "o/Bounter.class"));
    assert!(rt; !has(&mut folder, "o/Counter.class"));
    Ok(())
}

/// Where rewriting puts the helper of arrays.
const HELPER: &str = "o/org/deuce/transaction/ArrayHelper.class";

#[test]
fn the_helper_is_put_last(rt: HostRuntime) -> Result<(), Fail> {
    let mut folder = folder_of(rt.alloc(), COUNTER.as_slice(), THREE_CALLS)?;
    folder.fail_puts.push(4)?;
    let line = "error 11 o/org/deuce/transaction/ArrayHelper.class\n";
    assert!(rt; ends_with(&rt, rt.alloc(), REWRITE, &mut folder, 11, line)?);
    assert!(rt; has(&mut folder, "o/Counter.class"));
    assert!(rt; !has(&mut folder, HELPER));
    Ok(())
}

#[test]
fn what_was_rewritten_is_not_rewritten_again(rt: HostRuntime) -> Result<(), Fail> {
    let alloc = rt.alloc();
    let mut folder = folder_of(alloc, COUNTER.as_slice(), THREE_CALLS)?;
    let counts = "classes 1\ntaken 1\natomic 1\n";
    assert!(rt; ends_with(&rt, alloc, REWRITE, &mut folder, 0, counts)?);
    let refused = "error 4 21 ReservedName Counter\n";
    assert!(rt; gives(&rt, alloc, ["rewrite", "o", "p"], folder, 4, refused)?);
    Ok(())
}

/// A folder with the example's class at the helper's path, and another class of this name.
fn with_helper(alloc: Global, class: &[u8]) -> Result<MemFolder, IoEnd> {
    let mut folder = folder_of(alloc, class, THREE_CALLS)?;
    folder.put(
        "d/org/deuce/transaction/ArrayHelper.class",
        COUNTER.as_slice(),
    )?;
    Ok(folder)
}

/// Whether a call over a class at the helper's path, and this class beside it, is refused by this
/// line.
fn helper_is_refused<R: Threads + Sync>(
    rt: &R,
    alloc: Global,
    words: [&str; 3],
    class: &[u8],
    line: &str,
) -> Result<bool, IoEnd> {
    let folder = with_helper(alloc, class)?;
    Ok(gives(rt, alloc, words, folder, 4, line)?)
}

#[test]
fn a_class_at_the_path_of_the_helper_is_refused(rt: HostRuntime) -> Result<(), Fail> {
    let class = renamed();
    let line = "error 4 21 ReservedName Counter\n";
    assert!(rt; helper_is_refused(&rt, rt.alloc(), RUN, class.as_slice(), line)?);
    assert!(rt; helper_is_refused(&rt, rt.alloc(), REWRITE, class.as_slice(), line)?);
    Ok(())
}

#[test]
fn a_fault_of_the_classes_is_told_before_a_class_at_the_path_of_the_helper(
    rt: HostRuntime,
) -> Result<(), Fail> {
    let line = "error 4 17 DoubledClass Counter\n";
    assert!(rt; helper_is_refused(&rt, rt.alloc(), RUN, COUNTER.as_slice(), line)?);
    assert!(rt; helper_is_refused(&rt, rt.alloc(), REWRITE, COUNTER.as_slice(), line)?);
    Ok(())
}

/// Whether a run on this class file and this script ends with this status and text.
fn ends_as<R: Threads + Sync>(
    rt: &R,
    alloc: Global,
    class: &[u8],
    script: &[u8],
    status: u8,
    text: &str,
) -> Result<bool, IoEnd> {
    let folder = folder_of(alloc, class, script)?;
    Ok(gives(rt, alloc, RUN, folder, status, text)?)
}

/// The example's class with an attribute of so many bytes, in 207 bytes more than these.
fn padded(alloc: Global, length: u32) -> Result<Vec<u8>, AllocError> {
    let mut class = Vec::new(alloc);
    class.extend_from_slice(&COUNTER[..200])?;
    // one attribute, by the name of entry 5
    class.extend_from_slice([1u8, 0, 5].as_slice())?;
    class.extend_from_slice(length.to_be_bytes().as_slice())?;
    class.extend_from_slice(vec![in alloc; 0u8; length as usize]?.as_slice())?;
    Ok(class)
}

#[test]
fn a_good_class_of_one_byte_over_its_limit_is_refused(rt: HostRuntime) -> Result<(), Fail> {
    let alloc = rt.alloc();
    let run = "history 1\n0 0 0 Counter.inc()I 1\nunplaced 0\n";
    let refused = "error 3 d/Counter.class 30 OverLimit file 1048577\n";
    for (length, status, text) in [(1_048_369u32, 0, run), (1_048_370, 3, refused)] {
        let class = padded(alloc, length)?;
        assert!(rt;
            ends_as(&rt, alloc, class.as_slice(), ONE_CALL, status, text)?,
            "{length}"
        );
    }
    Ok(())
}

#[test]
fn a_class_file_over_its_limit_is_told(rt: HostRuntime) -> Result<(), Fail> {
    let class = vec![in rt.alloc(); 0u8; 1_048_577]?;
    let line = "error 3 d/Counter.class 30 OverLimit file 1048577\n";
    assert!(rt; ends_as(&rt, rt.alloc(), class.as_slice(), ONE_CALL, 3, line)?);
    Ok(())
}

#[test]
fn a_script_over_its_limit_is_told(rt: HostRuntime) -> Result<(), Fail> {
    let script = vec![in rt.alloc(); b' '; 16_777_217]?;
    let line = "error 6 30 OverLimit script 16777217\n";
    assert!(rt;
        ends_as(
            &rt,
            rt.alloc(),
            COUNTER.as_slice(),
            script.as_slice(),
            6,
            line
        )?
    );
    Ok(())
}
