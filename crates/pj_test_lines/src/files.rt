// The adapters on real files, and each call that takes memory, once with ample memory.
ghost use Rattle.std.specs.Prelude.{◌<◌};

use pj_io::{
    DiskFolder, Folder, MemFolder, MemSink, MemSource, Sink, StdSink, SteadySink, WholeStop,
    read_whole, write_all,
};
use pj_value::{Bytes, NoMemory};
use std::alloc::Global;
use std::fs;
use std::test::Fail;

// Whether the file of the name has these bytes, or is not opened.
fn has<F: Folder>(alloc: Global, folder: &mut F, name: &[u8], want: Option<&[u8]>) -> bool {
    match folder.open_file(alloc, name) {
        Ok(mut file) => {
            let whole = read_whole(alloc, &mut file, 100);
            folder.close_file(file);
            matches!((&whole, want), (Ok(whole), Some(want)) if whole.as_slice() == want)
        }
        Err(_) => want.is_none(),
    }
}

#[test]
fn disk_files_are_read(rt: HostRuntime) {
    let path = "pj_io_disk_files_are_read";
    assert!(rt; fs::write(&rt, path, b"t 1 \"a\"\n\xff").is_ok());
    let mut folder = DiskFolder::new(rt.alloc(), &rt);
    for (name, want) in [
        (path.as_bytes(), Some(b"t 1 \"a\"\n\xff".as_slice())),
        (b"pj_io_no_such_file".as_slice(), None),
        (b"\xff".as_slice(), None),
    ] {
        assert!(rt; has(rt.alloc(), &mut folder, name, want));
    }
    assert!(rt; fs::remove_file(&rt, path).is_ok());
    assert!(rt; StdSink::new(rt.alloc(), &rt).is_ok());
}

// The second opening fails.
#[test]
fn folders_give_what_was_added(rt: HostRuntime) -> Result<(), Fail> {
    let mut folder = MemFolder::new(rt.alloc(), &[1])?;
    folder.add(rt.alloc(), b"a", b"xyz", 2, &[])?;
    for (name, want) in [(b"a", Some(b"xyz".as_slice())), (b"a", None), (b"b", None)] {
        assert!(rt; has(rt.alloc(), &mut folder, name, want));
    }
    Ok(())
}

fn read_of(alloc: Global, fail: u64, limit: u32) -> Result<Bytes, WholeStop> {
    let mut source = MemSource::new(alloc, b"abcde", 2, &[fail])?;
    read_whole(alloc, &mut source, u64::from(limit))
}

#[test]
fn sources_are_read_whole(rt: HostRuntime) {
    let whole = read_of(rt.alloc(), 9, 5);
    assert!(rt; matches!(&whole, Ok(whole) if whole.as_slice() == b"abcde".as_slice()));
    for (limit, stop) in [(4, WholeStop::TooLong), (9, WholeStop::Fault)] {
        assert_eq!(rt; read_of(rt.alloc(), 3, limit).err(), Some(stop));
    }
}

// Whether these bytes are what is written of five, and it fails where they are fewer.
fn is_written(alloc: Global, fail: u64, room: usize, want: &[u8]) -> Result<bool, NoMemory> {
    let mut sink = MemSink::new(alloc, 2, &[fail])?;
    sink.room(room)?;
    let all = write_all(&mut sink, b"abcde").is_ok();
    Ok(sink.bytes() == want && all == (want.len() == 5))
}

#[test]
fn sinks_keep_what_is_written(rt: HostRuntime) {
    for (fail, room, want) in [
        (9, 5, b"abcde".as_slice()),
        (1, 100, b"ab"),
        (9, 4, b"abcd"),
    ] {
        assert_eq!(rt; is_written(rt.alloc(), fail, room, want), Ok(true));
    }
}

// A piece that is written, how many bytes of it are taken, and all that is kept then.
type Write = (&'static [u8], usize, &'static [u8]);

const PAST_THE_ROOM: &[Write] = &[
    (b"abcde", 3, b"abc"),
    (b"", 0, b"abc"),
    (b"de", 2, b"abc"),
    (b"d", 1, b"abc"),
    (b"efgh", 3, b"abc"),
];

const TO_THE_ROOM: &[Write] = &[(b"abcd", 3, b"abc"), (b"d", 1, b"abcd"), (b"", 0, b"abcd")];

const BYTE_BY_BYTE: &[Write] = &[(b"ab", 1, b"a"), (b"bc", 1, b"ab"), (b"c", 1, b"ab")];

// Whether a steady sink takes and keeps just that.
fn takes(alloc: Global, cut: usize, room: usize, writes: &[Write]) -> Result<bool, NoMemory>
    requires { 0 < cut }
{
    let mut sink = SteadySink::new(alloc, cut, room)?;
    let mut all = sink.bytes().is_empty();
    for &(piece, taken, kept) in writes {
        let count = sink.write(piece);
        all = all && count == Ok(taken) && sink.bytes() == kept && sink.flush().is_ok();
    }
    Ok(all)
}

#[test]
fn steady_sinks_take_all(rt: HostRuntime) {
    assert_eq!(rt; takes(rt.alloc(), 3, 4, PAST_THE_ROOM), Ok(true));
    assert_eq!(rt; takes(rt.alloc(), 3, 4, TO_THE_ROOM), Ok(true));
    assert_eq!(rt; takes(rt.alloc(), 1, 2, BYTE_BY_BYTE), Ok(true));
}
