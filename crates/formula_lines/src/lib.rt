// Formula lines: a supplier's formula, short forms and all, becomes the table of what it is spelled out to.
#![tactic(auto)]

mod forms;
mod keywords;
mod nodes;

ghost use Rattle.std.specs.Prelude.{◌≤◌, length};
ghost use Rattle.text.specs.Limits.{most_bytes};
ghost use Rattle.formula_lines.specs.FormulaAnswer.{FormulaAnswer};
ghost use Rattle.formula_lines.specs.Inner.Reader.{WholeRead};

use forms::{Read, read_form};
use keywords::Sort;
use psl::MOST_NODES;
use text::copy::copy_front;
use text::scan;
use text::scan::{Cursor, Fault};
use trace::Refusal;

// A formula line, its nodes numbered from 0.
fn read_whole(line: &[u8], out: &mut [u16]) -> Result<Read, Fault>
    ensures { WholeRead line.now out.old out.new result }
{
    let mut cursor = Cursor { line, at: 0 };
    cursor.expect(b"(psl ")?;
    let read = read_form(&mut cursor, Sort::Formula, out, 0)?;
    cursor.expect(b")")?;
    cursor.end()?;
    Ok(read)
}

// A formula line's table into the lent list: how many nodes it has. It is read aside first, since a refusal leaves the list as it was.
pub fn read_formula(line: &[u8], out: &mut [u16]) -> Result<usize, Refusal>
    ensures { FormulaAnswer line.now out.old result out.new }
{
    if scan::MOST_BYTES < line.len() {
        return Err(Refusal::LongLine);
    }
    let mut table = [0u16; 3 * MOST_NODES];
    let read = read_whole(line, &mut table)?;
    if MOST_NODES < read.nodes {
        return Err(Refusal::ManyNodes);
    }
    if read.large {
        return Err(Refusal::LargeSignal);
    }
    if out.len() < 3 * read.nodes {
        return Err(Refusal::ListRoom);
    }
    copy_front(&table[..3 * read.nodes], out);
    Ok(read.nodes)
}
