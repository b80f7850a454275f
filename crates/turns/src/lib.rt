// A run on an input and an output: each turn reads a block, has it taken, and writes what it printed.
#![tactic(auto)]

ghost use Rattle.std.specs.Prelude.{◌≡◌, ◌≢◌, true, IsOk, IsErr, OnOk};
ghost use Rattle.std.specs.IoError.{error_kind};
ghost use Rattle.run.specs.Inner.{goes_on};
ghost use Rattle.turns.specs.Turn.{Moved, Whole};

use run::{BLOCK, NotTaken, Run};
use std::io::{self, ErrorKind, Read, Write};
use thiserror::Error;

// Why a run stops before its input ends.
#[derive(Debug, Drop, Error)]
pub enum Stop {
    #[error("standard input: {0}")]
    Input(io::Error),
    #[error("standard output: {0}")]
    Output(io::Error),
    #[error(transparent)]
    Block(#[from] NotTaken),
    #[error("more blocks than can be counted")]
    ManyTurns,
}

// A read failed. One that was interrupted is tried again; any other stops the run, so that half a line is never taken for one.
fn unless_interrupted(e: io::Error) -> Result<(), Stop>
    ensures again { error_kind e ≡ ErrorKind.Interrupted → IsOk result }
    ensures stops { error_kind e ≢ ErrorKind.Interrupted → IsErr result }
{
    if e.kind() == ErrorKind::Interrupted {
        return Ok(());
    }
    Err(Stop::Input(e))
}

// One block: it is read, taken, and what it prints is written.
fn take_turn<R: Read, W: Write>(input: &mut R, output: &mut W, run: &mut Run) -> Result<(), Stop>
    requires { goes_on run.old ≡ true }
    ensures { OnOk result (Moved (R.remaining input.old) (R.remaining input.new) (W.contents output.old) (W.contents output.new) run.old run.new) }
{
    // `read` tells how much of it is in use.
    let mut block = [0u8; BLOCK];
    let n = match input.read(&mut block) {
        Ok(n) => n,
        Err(e) => return unless_interrupted(e),
    };
    run.advance(&block[..n])?;
    let printed = run.gathered();
    output.write_all(printed).map_err(Stop::Output)
}

// A run from an input to an output, to the input's end or to a refused first line.
pub fn take_turns<R: Read, W: Write>(input: &mut R, output: &mut W) -> Result<(), Stop>
    ensures { OnOk result (Whole (R.remaining input.old) (W.contents output.old) (W.contents output.new)) }
{
    let mut run = Run::new();
    for _ in 0..u64::MAX {
        take_turn(input, output, &mut run)?;
        if !run.goes_on() {
            return Ok(());
        }
    }
    Err(Stop::ManyTurns)
}
