// A request a line on standard input; its answer, in words, on standard output.
#![tactic(auto)]

mod faults;
mod kept;
mod lists;
mod requests;

use crate::faults::Fault;
use crate::kept::Kept;
use crate::requests::Request;
use std::alloc::Global;
use std::io;
use std::io::{BufRead, BufWriter, Read, Write};
use std::process::ExitCode;

// The most bytes of a line, its byte 10 included. Longer ones are not kept: an input may be one line without end.
const LINE_ROOM: usize = 65537;

// The next line into `line`, its byte 10 included; nothing at the input's end. A line that is too long is taken as empty, which is no request: as
// a case of its own it would have the same answer.
fn read_line(input: &mut impl BufRead, line: &mut Vec<u8>) -> io::Result<()> {
    line.clear();
    input.take(LINE_ROOM as u64).read_until(b'\n', line)?;
    if line.len() == LINE_ROOM && !line.ends_with(b"\n") {
        input.skip_until(b'\n')?;
        line.clear();
        line.push(b'\n')?;
    }
    Ok(())
}

fn answer(alloc: Global, kept: &mut Kept, line: &[u8], out: &mut impl Write) -> Result<(), Fault> {
    let request = Request::parse(alloc, line)?;
    kept.answer(request, out)
}

// An answer, or why there is none, and byte 10.
fn reply(alloc: Global, kept: &mut Kept, line: &[u8], out: &mut impl Write) -> Result<(), Fault> {
    match answer(alloc, kept, line, out) {
        Err(fault @ (Fault::NotUnderstood | Fault::Refused(_))) => write!(out, "{fault}")?,
        other => other?,
    }
    out.write_all(b"\n")?;
    out.flush()?;
    Ok(())
}

// Lines to the input's end, each answered before the next is read. The last may have no byte 10: then no more is read.
fn run(rt: &(impl Input + Print + AllocGlobal)) -> Result<(), Fault> {
    let alloc = rt.alloc();
    let mut kept = Kept::new(alloc)?;
    let mut input = rt.reader();
    let mut out = BufWriter::new(alloc, io::writer(rt))?;
    let mut line = Vec::new(alloc);
    for _ in 0..u64::MAX {
        read_line(&mut input, &mut line).map_err(Fault::Input)?;
        let Some(request) = line.strip_suffix(b"\n") else {
            break;
        };
        reply(alloc, &mut kept, request, &mut out)?;
    }
    if !line.is_empty() {
        reply(alloc, &mut kept, &line, &mut out)?;
    }
    Ok(())
}

fn main(rt: HostRuntime) -> ExitCode {
    match run(&rt) {
        Ok(()) => ExitCode::SUCCESS,
        Err(fault) => {
            let _ = eprintln!(rt; "ask: {fault}");
            ExitCode::FAILURE
        }
    }
}
