//! Tests of bytes that are no text, of readers and writers that fail, and of a reader that never
//! ends.

use oauth2_commands::{RunFault, RunStatus, ScriptSource, run_script};
use std::io;
use std::io::{Error, ErrorKind, Read, Write};
use std::process::Abort;
use std::test::Fail;

const SCRIPT: &str =
    "{\"client\":{\"id\":\"aaa\",\"secret\":\"bbb\",\"token_url\":\"https://example.com/token\"},\
    \"command\":\"code\",\"params\":{\"code\":\"ccc\"},\"replies\":[{\"status\":200,\
    \"body\":\"{\\\"access_token\\\": \\\"12/34\\\", \\\"token_type\\\": \\\"BEARER\\\"}\"}]}";

const LINES: &str = "request POST https://example.com/token\nauthorization Basic YWFhOmJiYg==\n\
    body \"grant_type=authorization_code&code=ccc\"\nbasic \"aaa\" \"bbb\"\n\
    pair \"grant_type\" \"authorization_code\"\npair \"code\" \"ccc\"\n\
    answer ok {\"access_token\":\"12/34\",\"token_type\":\"bearer\"}\n";

// Returns the bytes one at a time, and fails at one of its reads.
#[derive(Drop)]
struct FailingReader<'a> {
    left: &'a [u8],
    reads: u32,
    fails_at: u32,
}

impl Read for FailingReader<'_> {
    fn read(&mut self, buf: &mut [u8]) -> io::Result<usize> {
        self.reads = self.reads.saturating_add(1);
        if self.reads == self.fails_at {
            return Err(Error::from(ErrorKind::Other));
        }
        match (self.left, buf) {
            ([first, rest @ ..], [place, ..]) => {
                *place = *first;
                self.left = rest;
                Ok(1)
            }
            _ => Ok(0),
        }
    }
}

// Returns a space at every call.
#[derive(Drop)]
struct EndlessReader {
    reads: u32,
}

impl Read for EndlessReader {
    fn read(&mut self, buf: &mut [u8]) -> io::Result<usize> {
        self.reads = self.reads.saturating_add(1);
        match buf {
            [place, ..] => {
                *place = b' ';
                Ok(1)
            }
            [] => Ok(0),
        }
    }
}

// Takes one byte at a call, and fails at one of its writes.
#[derive(Drop)]
struct FailingWriter {
    taken: Vec<u8>,
    writes: usize,
    fails_at: usize,
}

impl Write for FailingWriter {
    fn write(&mut self, buf: &[u8]) -> io::Result<usize> {
        self.writes = self.writes.saturating_add(1);
        if self.writes == self.fails_at {
            return Err(Error::from(ErrorKind::Other));
        }
        match buf {
            [first, ..] => {
                self.taken.push(*first)?;
                Ok(1)
            }
            [] => Ok(0),
        }
    }

    fn flush(&mut self) -> io::Result<()> {
        Ok(())
    }
}

fn assert_ended(
    rt: &impl Abort,
    ended: Result<RunStatus, RunFault>,
    wanted: Result<RunStatus, RunFault>,
) {
    assert_eq!(rt; ended, wanted);
}

#[test]
fn reads_fail(rt: HostRuntime) -> Result<(), Fail> {
    let mut at = 1u32;
    for _ in 0..1000u32 {
        let mut reader = FailingReader {
            left: SCRIPT.as_bytes(),
            reads: 0,
            fails_at: at,
        };
        let mut written = Vec::new(rt.alloc());
        let result = run_script(
            rt.alloc(),
            &mut ScriptSource::new(&mut reader),
            &mut written,
        );
        if reader.reads < at {
            assert_ended(&rt, result, Ok(RunStatus::Answered));
            return Ok(());
        }
        assert_ended(&rt, result, Err(RunFault::Read));
        assert!(rt; reader.reads == at);
        assert!(rt; written.is_empty());
        at = at.saturating_add(1);
    }
    assert!(rt; false, "no run without a failure");
    Ok(())
}

#[test]
fn writes_fail(rt: HostRuntime) -> Result<(), Fail> {
    let whole = LINES.len();
    for at in 1..=whole {
        let mut input = ScriptSource::new(SCRIPT.as_bytes());
        let mut writer = FailingWriter {
            taken: Vec::new(rt.alloc()),
            writes: 0,
            fails_at: at,
        };
        let result = run_script(rt.alloc(), &mut input, &mut writer);
        assert_ended(&rt, result, Err(RunFault::Write));
        assert!(rt; writer.writes == at);
    }
    Ok(())
}

// A writer that fails at the write after the last one, so no write fails.
#[test]
fn writes_end(rt: HostRuntime) -> Result<(), Fail> {
    let whole = LINES.len();
    let mut input = ScriptSource::new(SCRIPT.as_bytes());
    let mut writer = FailingWriter {
        taken: Vec::new(rt.alloc()),
        writes: 0,
        fails_at: whole.saturating_add(1),
    };
    let result = run_script(rt.alloc(), &mut input, &mut writer);
    assert_ended(&rt, result, Ok(RunStatus::Answered));
    assert!(rt; writer.writes == whole);
    Ok(())
}

// Takes no byte at any call.
#[derive(Drop)]
struct FullWriter;

impl Write for FullWriter {
    fn write(&mut self, _buf: &[u8]) -> io::Result<usize> {
        Ok(0)
    }

    fn flush(&mut self) -> io::Result<()> {
        Ok(())
    }
}

#[test]
fn nothing_is_taken(rt: HostRuntime) -> Result<(), Fail> {
    for input in [SCRIPT, "{}"] {
        let mut input = ScriptSource::new(input.as_bytes());
        let result = run_script(rt.alloc(), &mut input, &mut FullWriter);
        assert_ended(&rt, result, Err(RunFault::Write));
    }
    Ok(())
}

// Takes every byte, and fails when it is flushed.
#[derive(Drop)]
struct UnflushedWriter {
    taken: Vec<u8>,
}

impl Write for UnflushedWriter {
    fn write(&mut self, buf: &[u8]) -> io::Result<usize> {
        self.taken.extend_from_slice(buf)?;
        Ok(buf.len())
    }

    fn flush(&mut self) -> io::Result<()> {
        Err(Error::from(ErrorKind::Other))
    }
}

#[test]
fn flush_fails(rt: HostRuntime) -> Result<(), Fail> {
    let mut input = ScriptSource::new(SCRIPT.as_bytes());
    let mut writer = UnflushedWriter {
        taken: Vec::new(rt.alloc()),
    };
    let result = run_script(rt.alloc(), &mut input, &mut writer);
    assert_ended(&rt, result, Err(RunFault::Write));
    assert!(rt; writer.taken.as_slice() == LINES.as_bytes());
    Ok(())
}

#[test]
fn endless_input(rt: HostRuntime) -> Result<(), Fail> {
    let mut reader = EndlessReader { reads: 0 };
    let mut written = Vec::new(rt.alloc());
    let result = run_script(
        rt.alloc(),
        &mut ScriptSource::new(&mut reader),
        &mut written,
    );
    assert_ended(&rt, result, Err(RunFault::Read));
    assert!(rt; reader.reads == 1_048_576);
    assert!(rt; written.is_empty());
    Ok(())
}

#[test]
fn inputs_that_are_no_script(rt: HostRuntime) -> Result<(), Fail> {
    let cases = [
        b"".as_slice(),
        b"[]",
        b"1",
        b"{}",
        b"{}{}",
        b"\xff",
        b"{\"client\":{\"id\":\"\xff\"},\"command\":\"code\",\"params\":{\"code\":\"\"}}",
    ];
    for bytes in cases {
        let mut written = Vec::new(rt.alloc());
        let mut input = ScriptSource::new(bytes);
        let result = run_script(rt.alloc(), &mut input, &mut written);
        assert_ended(&rt, result, Ok(RunStatus::BadScript));
        assert!(rt; written.as_slice() == b"bad script\n".as_slice());
    }
    Ok(())
}
