//! The program `ciao_faults`: it runs the top call over devices in memory that fail, and writes a line for each run, with its
//! status and whether what was written is a beginning of what the run without faults writes.
#![tactic(auto)]

ghost use Rattle.std.specs.Prelude.{◌≡◌, IfOk};

use cp_io::{Bytes, Fail, Fails, FileRow, FileRows, MemFiles, MemSink, bytes_of};
use cp_top::{LocalEnd, local_top};
use cp_words::Words;
use std::alloc::{AllocError, Global};
use std::io;
use std::process::ExitCode;

/// How many bytes a sink has room for.
const ROOM: u32 = 4096;
/// The most bytes that a file may have.
const MOST: usize = 1_048_576;
/// How many puts the run without faults makes, the last line among them.
const PUTS: u32 = 5;
/// The status for want of memory.
const SHORT: u8 = 70;

/// The end of a run.
type End = LocalEnd<MemFiles, MemSink>;

/// A program that writes two lines and fails.
fn program(alloc: Global) -> Result<Bytes, AllocError> {
    bytes_of(
        alloc,
        b":- module(m, [main/0]).\nmain :- write(one), nl, write('the second'), nl, fail.\n",
    )
}

/// The words `sim m.pl`.
fn words(alloc: Global) -> Result<Words, AllocError> {
    let mut words = Words::new(alloc);
    words.push(bytes_of(alloc, b"sim")?)?;
    words.push(bytes_of(alloc, b"m.pl")?)?;
    Ok(words)
}

/// The one failure at this call of a device, after so many bytes.
fn failing(alloc: Global, call: u32, taken: u32) -> Result<Fails, AllocError> {
    let mut fails = Fails::new(alloc);
    fails.push(Fail { call, taken })?;
    Ok(fails)
}

/// A file of this name.
fn file(alloc: Global, name: &[u8], bytes: Bytes) -> Result<FileRows, AllocError> {
    let mut rows = FileRows::new(alloc);
    let name = bytes_of(alloc, name)?;
    rows.push(FileRow { name, bytes })?;
    Ok(rows)
}

/// Runs `sim m.pl` on these files, with a sink that fails so.
fn run(alloc: Global, files: MemFiles, fails: Fails) -> Result<End, AllocError> {
    let words = words(alloc)?;
    let out = MemSink::new(alloc, ROOM, fails)?;
    Ok(local_top(alloc, &words, files, out))
}

/// Runs the program with a sink that fails so.
fn run_program(alloc: Global, fails: Fails) -> Result<End, AllocError> {
    let rows = file(alloc, b"m.pl", program(alloc)?)?;
    run(alloc, MemFiles::new(alloc, rows, Fails::new(alloc)), fails)
}

/// Runs a file of these bytes.
fn run_bytes(alloc: Global, bytes: Bytes) -> Result<End, AllocError> {
    let rows = file(alloc, b"m.pl", bytes)?;
    let files = MemFiles::new(alloc, rows, Fails::new(alloc));
    run(alloc, files, Fails::new(alloc))
}

/// Runs the program, whose file fails when it is read.
fn run_unread(alloc: Global) -> Result<End, AllocError> {
    let rows = file(alloc, b"m.pl", program(alloc)?)?;
    let fails = failing(alloc, 1, 0)?;
    run(alloc, MemFiles::new(alloc, rows, fails), Fails::new(alloc))
}

/// A comment of so many bytes.
fn comment(alloc: Global, count: usize) -> Result<Bytes, AllocError> {
    let mut bytes = Bytes::new(alloc);
    for _ in 0..count {
        bytes.push(b'%')?;
    }
    Ok(bytes)
}

/// Writes the line of a run with a sink that fails at a put.
fn tell_put(rt: &impl Print, alloc: Global, whole: &[u8], put: u32, taken: u32) -> io::Result<()> {
    let end = run_program(alloc, failing(alloc, put, taken)?)?;
    let held = end.out.held();
    let begins = if whole.starts_with(held) {
        "a beginning"
    } else {
        "something else"
    };
    println!(rt;
        "put {put} fails after {taken} bytes: status {}, {} bytes, {begins}",
        end.status,
        held.len()
    )
}

/// Writes the lines of the runs in which each put fails in turn, and of one in which a put fails that is never made.
fn tell_puts(rt: &impl Print, alloc: Global) -> io::Result<()> {
    let whole = run_program(alloc, Fails::new(alloc))?;
    let held = whole.out.held();
    println!(rt;
        "no put fails: status {}, {} bytes",
        whole.status,
        held.len()
    )?;
    for put in 0..PUTS + 1 {
        tell_put(rt, alloc, held, put + 1, 0)?;
        tell_put(rt, alloc, held, put + 1, 2)?;
    }
    Ok(())
}

/// Writes the line of a run with a file that is not as it should be.
fn tell_file(rt: &impl Print, name: &str, end: &End) -> io::Result<()> {
    println!(rt;
        "{name}: status {}, {} bytes",
        end.status,
        end.out.held().len()
    )
}

/// Writes the line of a run with a file of these bytes.
fn tell_bytes(rt: &impl Print, alloc: Global, name: &str, bytes: Bytes) -> io::Result<()> {
    let end = run_bytes(alloc, bytes)?;
    tell_file(rt, name, &end)
}

/// Writes the line of a run whose file cannot be read.
fn tell_unread(rt: &impl Print, alloc: Global) -> io::Result<()> {
    let end = run_unread(alloc)?;
    tell_file(rt, "a file that cannot be read", &end)
}

/// Writes the line of a run whose file is missing.
fn tell_missing(rt: &impl Print, alloc: Global) -> io::Result<()> {
    let none = MemFiles::new(alloc, FileRows::new(alloc), Fails::new(alloc));
    let end = run(alloc, none, Fails::new(alloc))?;
    tell_file(rt, "a file that is missing", &end)
}

/// Writes the line of a run whose file has a byte that is no UTF-8.
fn tell_latin(rt: &impl Print, alloc: Global) -> io::Result<()> {
    let latin = bytes_of(alloc, b":- module(m, [main/0]).\nmain :- write('\xe9').\n")?;
    tell_bytes(rt, alloc, "a file that is not UTF-8", latin)
}

/// Writes the line of a run whose file is a comment of so many bytes.
fn tell_comment(rt: &impl Print, alloc: Global, name: &str, count: usize) -> io::Result<()> {
    let bytes = comment(alloc, count)?;
    tell_bytes(rt, alloc, name, bytes)
}

/// Writes the lines of the runs with such files.
fn tell_files(rt: &impl Print, alloc: Global) -> io::Result<()> {
    tell_unread(rt, alloc)?;
    tell_missing(rt, alloc)?;
    tell_bytes(rt, alloc, "an empty file", Bytes::new(alloc))?;
    tell_latin(rt, alloc)?;
    tell_comment(rt, alloc, "a file of the most bytes", MOST)?;
    tell_comment(rt, alloc, "a file of one byte more", MOST + 1)
}

fn tell(rt: &impl Print, alloc: Global) -> io::Result<()> {
    tell_puts(rt, alloc)?;
    tell_files(rt, alloc)
}

fn main(rt: HostRuntime) -> ExitCode {
    match tell(&rt, rt.alloc()) {
        Ok(()) => ExitCode::SUCCESS,
        Err(_) => ExitCode::from(SHORT),
    }
}
