// The adapters over files of the system, and over a reader and a writer that are interrupted and then fail.

use sim_ends::{Input, Output, RealFiles};
use sim_ports::{Files, Sink, Source};
use std::fs;
use std::io::{self, ErrorKind, Read, Write};
use std::rt::Files as FileSystem;
use std::test::Fail;

// It is interrupted at its first call, takes or gives one byte at the second, and none at the third; then it fails.
#[derive(Drop)]
struct Stuttering {
    call: u8,
}

impl Stuttering {
    fn next(&mut self) -> io::Result<usize> {
        let call = self.call;
        self.call = call.saturating_add(1);
        match call {
            0 => Err(io::Error::from(ErrorKind::Interrupted)),
            1 => Ok(1),
            2 => Ok(0),
            _ => Err(io::Error::from(ErrorKind::BrokenPipe)),
        }
    }
}

impl Read for Stuttering {
    fn read(&mut self, buf: &mut [u8]) -> io::Result<usize> {
        let count = self.next()?;
        Ok(count.min(buf.len()))
    }
}

impl Write for Stuttering {
    fn write(&mut self, buf: &[u8]) -> io::Result<usize> {
        let count = self.next()?;
        Ok(count.min(buf.len()))
    }

    fn flush(&mut self) -> io::Result<()> {
        Ok(())
    }
}

// How many bytes a first read of up to two gives of the file of this name: none where the read fails, and none at all where no such file
// opens.
fn first_read<R: FileSystem>(rt: &R, name: String) -> Option<Option<usize>> {
    let mut files = RealFiles::new(rt);
    if files.select(name).is_err() {
        return None;
    }
    let mut piece = [0u8; 2];
    Some(files.read(&mut piece).ok())
}

#[test]
fn files_of_the_system(rt: HostRuntime) -> Result<(), Fail> {
    fs::write(&rt, "sim_ends_test.txt", "abc")?;
    fs::write(&rt, " sim_ends  test .txt", "d")?;
    // A directory opens, and no read of it succeeds.
    for (name, count) in [
        ("sim_ends_test.txt", Some(Some(2))),
        (" sim_ends  test .txt", Some(Some(1))),
        (" sim_ends_test.txt", None),
        ("sim_ends_test.txt ", None),
        (".", Some(None)),
    ] {
        let chosen = String::from_str(rt.alloc(), name).expect(&rt, "memory is ample");
        let found = first_read(&rt, chosen);
        assert!(rt; found == count, "{name}");
    }
    fs::remove_file(&rt, "sim_ends_test.txt")?;
    fs::remove_file(&rt, " sim_ends  test .txt")?;
    Ok(())
}

// An interrupted call is made again, a read of nothing is the end of the input, a write of nothing is a fault.
#[test]
fn readers_and_writers_that_fail(rt: HostRuntime) {
    let mut input = Input::new(Stuttering { call: 0 });
    let mut output = Output::new(Stuttering { call: 0 });
    let mut piece = [0u8; 2];
    for (given, taken) in [(Some(1), Some(1)), (Some(0), None), (None, None)] {
        assert!(rt; input.read(&mut piece).ok() == given);
        assert!(rt; output.write(b"abc").ok() == taken);
    }
}
