// A run as a stream of bytes: lines are cut off, answered, and the answers gathered.
#![tactic(auto)]

mod later;

ghost use Rattle.std.specs.Prelude.{◌≡◌, true, false, [], ◌∷◌, ◌++◌, ◌+◌, ◌<◌, ◌≤◌, take, length};
ghost use Rattle.printing.specs.Limits.{most_first};
ghost use Rattle.run.specs.Bounds.{most_block, most_gathered, most_lines};
ghost use Rattle.run.specs.Inner.{Starts, goes_on, none_open, gathered, Gathered, Accepts, FirstDone, AnsweredIn, Answered, LineDone, Kept, Fed, Finished, Taken};

use arrayvec::ArrayVec;
use later::answer_later;
use line_one::Tables;
use printing::{put_refused, put_table};
use text::scan::MOST_BYTES;
use thiserror::Error;

// A line's bytes that are kept: one more than a line may have, so that a longer one is seen to be.
const LINE_ROOM: usize = MOST_BYTES + 1;

// The most bytes of a block of input.
pub const BLOCK: usize = 4096;

// The most bytes of the answer to line 1, and of that to a later one.
const MOST_FIRST: usize = 107000;

const MOST_LATER: usize = 60;

// Room for what a block prints, an answer to line 1 and one for each byte. One answer more would fit, so that none is cut.
const OUT_ROOM: usize = MOST_FIRST + MOST_LATER * BLOCK + MOST_LATER;

// Line numbers above this could overflow within a block.
const LAST_LINE: u64 = u64::MAX - BLOCK as u64;

// How far a run is.
#[derive(Drop)]
pub enum Stage {
    // Line 1 has not ended.
    First,
    // Line 1 was answered by these tables.
    Later(Tables),
    // Line 1 was refused, or the input ended.
    Ended,
}

// Why a block is not taken.
#[derive(Clone, Copy, Debug, PartialEq, Eq, Error)]
pub enum NotTaken {
    #[error("a block that is too long")]
    LongBlock,
    #[error("more lines than can be counted")]
    ManyLines,
    #[error("the run has ended")]
    RunEnded,
}

// What a run is made of between two bytes: the number of the open line, from 1, its bytes that are kept, and the bytes gathered for output.
// How many are gathered (`Gathered`), that the run goes on and that a line can be counted is asked for in three private `requires`: the bounds grow with each byte of a block, and the rest
// holds before those calls alone, so no invariant of a run can say it.
#[derive(Drop)]
pub struct Run {
    stage: Stage,
    number: u64,
    line: ArrayVec<u8, LINE_ROOM>,
    out: ArrayVec<u8, OUT_ROOM>,
}

// The stage after line 1, and its answer's text. That nothing is gathered before is asked for by this and by what calls it.
fn answer_first(line: &[u8], out: &mut ArrayVec<u8, OUT_ROOM>) -> Stage
    requires { out.old.items ≡ [] }
    ensures { FirstDone line.now result out.new.items × (length out.new.items ≤ most_first) }
{
    match Tables::of_line(line) {
        Ok(tables) => {
            put_table(out, tables.ltl().numbers);
            Stage::Later(tables)
        }
        Err(x) => {
            put_refused(out, 1, x);
            Stage::Ended
        }
    }
}

impl Run {
    // Before the first byte.
    pub fn new() -> Run
        ensures { Starts result }
    {
        Run {
            stage: Stage::First,
            number: 1,
            line: ArrayVec::new(),
            out: ArrayVec::new(),
        }
    }

    // Whether more of the input can change the output.
    pub fn goes_on(&self) -> bool
        ensures { result ≡ goes_on self.now }
    {
        match &self.stage {
            Stage::First | Stage::Later(_) => true,
            Stage::Ended => false,
        }
    }

    // What the last block printed.
    pub fn gathered(&self) -> &[u8]
        ensures { result.now ≡ gathered self.now }
    {
        &self.out
    }

    // The answer to line 1 is gathered. A function of its own, since the place of a new stage, which is large, is cleared in each call.
    #[inline(never)]
    fn answer_line_1(&mut self)
        requires { self.old.out.items ≡ [] }
        ensures { (self.new.number ≡ self.old.number) × (self.new.line.items ≡ self.old.line.items) × AnsweredIn Stage.First self.old self.new }
    {
        self.stage = answer_first(&self.line, &mut self.out);
    }

    // The answer to the open line is gathered.
    fn answer_line(&mut self)
        requires { self.old.stage ≡ Stage.First → self.old.out.items ≡ [] }
        ensures { Answered self.old self.new }
    {
        match &self.stage {
            Stage::First => self.answer_line_1(),
            Stage::Later(tables) => answer_later(&self.line, tables, self.number, &mut self.out),
            Stage::Ended => {}
        }
    }

    // The line that ends here is answered.
    fn end_line(&mut self)
        requires { Gathered most_gathered self.old × (goes_on self.old ≡ true) × (self.old.number < most_lines) }
        ensures { LineDone self.old self.new }
    {
        self.answer_line();
        self.number += 1;
        self.line.clear();
    }

    // A byte of a line; of a line longer than may be, the rest is not kept.
    fn keep(&mut self, b: u8)
        ensures { Kept b self.old self.new }
    {
        let _full = self.line.try_push(b);
    }

    // All bytes of a block, or up to the end of a refused line 1.
    fn feed(&mut self, block: &[u8])
        requires { Gathered 0 self.old × (goes_on self.old ≡ true) × (length block.now ≤ most_block) × (self.old.number + length block.now ≤ most_lines) }
        ensures { Fed block.now self.old self.new }
    {
        for &b in block {
            if b == b'\n' {
                self.end_line();
                if !self.goes_on() {
                    return;
                }
            } else {
                self.keep(b);
            }
        }
    }

    // Whether no line is open. Before line 1 has ended one is: an input without any line is an empty first one.
    fn none_open(&self) -> bool
        ensures { result ≡ none_open self.now }
    {
        match &self.stage {
            Stage::Later(_) => self.line.is_empty(),
            Stage::Ended | Stage::First => false,
        }
    }

    // The input's end: a last line without byte 10 is answered.
    fn finish(&mut self)
        requires { Gathered 0 self.old × (goes_on self.old ≡ true) × (self.old.number < most_lines) }
        ensures { Finished self.old self.new }
    {
        if self.none_open() {
            return;
        }
        self.end_line();
    }

    // Whether a block can be taken.
    fn accepts(&self, block: &[u8]) -> Result<(), NotTaken>
        ensures { Accepts block.now self.now result }
    {
        if BLOCK < block.len() {
            return Err(NotTaken::LongBlock);
        }
        if LAST_LINE < self.number {
            return Err(NotTaken::ManyLines);
        }
        if !self.goes_on() {
            return Err(NotTaken::RunEnded);
        }
        Ok(())
    }

    // A block of input, the empty one being the input's end. What it prints is gathered from the start. One that cannot be taken changes nothing.
    pub fn advance(&mut self, block: &[u8]) -> Result<(), NotTaken>
        ensures { Taken block.now self.old self.new result }
    {
        self.accepts(block)?;
        self.out.clear();
        if block.is_empty() {
            self.finish();
            self.stage = Stage::Ended;
            return Ok(());
        }
        self.feed(block);
        Ok(())
    }
}
