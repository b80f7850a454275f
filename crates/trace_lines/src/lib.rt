// Trace lines: `(finite N N)` or `(lasso (N N) (N N))`.
#![tactic(auto)]

ghost use Rattle.std.specs.Prelude.{◌≡◌, List, ℕ, ◌≤◌, length, unwrap_or};
ghost use Rattle.text.specs.Limits.{most_bytes};
ghost use Rattle.trace_lines.specs.TraceAnswer.{TraceAnswer};
ghost use Rattle.text.specs.Inner.Places.{CursorIn};
ghost use Rattle.trace_lines.specs.Inner.LettersReader.{LetterRead, LettersRead, further, listed, Any, NonEmpty, ListsRead, both_counted, finite_rest, lasso_rest, whole_line};

use logic::{LARGEST_LETTER, Letter};
use text::copy::copy_front;
use text::put::put;
use text::scan;
use text::scan::{Cursor, Fault};
use trace::{MOST_LETTERS, Refusal};

// The largest number that is a letter.
const LARGEST: u64 = LARGEST_LETTER as u64;

// How many letters the two lists of a trace have.
#[derive(Clone, Copy, Debug, PartialEq, Eq)]
pub struct Lengths {
    pub lead: usize,
    pub cycle: usize,
}

// One letter more, put behind those that were read. Their count is none once one is too large. The list and the count stay two parameters: as a struct of both they
// would come with a clause in each contract that the struct still holds the same list.
fn read_letter(
    cursor: &mut Cursor,
    out: &mut [Letter],
    count: Option<usize>,
) -> Result<Option<usize>, Fault>
    requires { CursorIn cursor.old.line.now cursor.old.at (unwrap_or count 0) }
    ensures line { cursor.new.line.now ≡ cursor.old.line.now }
    ensures read { LetterRead cursor.old.line.now cursor.old.at cursor.new.at count out.old out.new result }
{
    let letter = cursor.number(LARGEST)?;
    let (Some(n), Some(letter)) = (count, letter) else {
        return Ok(None);
    };
    put(out, n, letter as Letter); // within the limit, so that it fits
    Ok(Some(n + 1))
}

// Further letters up to the closing bracket, a space before each.
fn read_further(
    cursor: &mut Cursor,
    out: &mut [Letter],
    count: Option<usize>,
) -> Result<Option<usize>, Fault>
    requires { CursorIn cursor.old.line.now cursor.old.at (unwrap_or count 0) }
    ensures line { cursor.new.line.now ≡ cursor.old.line.now }
    ensures read { LettersRead further Any cursor.old.line.now cursor.old.at cursor.new.at count out.old out.new result }
{
    let mut count = count;
    while cursor.accept(b' ') {
        count = read_letter(cursor, out, count)?;
    }
    cursor.expect(b")")?;
    Ok(count)
}

// The letters of a list after its opening bracket, at least one.
fn read_some(cursor: &mut Cursor, out: &mut [Letter]) -> Result<Option<usize>, Fault>
    requires { CursorIn cursor.old.line.now cursor.old.at 0 }
    ensures line { cursor.new.line.now ≡ cursor.old.line.now }
    ensures read { LettersRead listed NonEmpty cursor.old.line.now cursor.old.at cursor.new.at (Some 0) out.old out.new result }
{
    let first = read_letter(cursor, out, Some(0))?;
    read_further(cursor, out, first)
}

// The same, perhaps none.
fn read_list(cursor: &mut Cursor, out: &mut [Letter]) -> Result<Option<usize>, Fault>
    requires { CursorIn cursor.old.line.now cursor.old.at 0 }
    ensures line { cursor.new.line.now ≡ cursor.old.line.now }
    ensures read { LettersRead listed Any cursor.old.line.now cursor.old.at cursor.new.at (Some 0) out.old out.new result }
{
    if cursor.accept(b')') {
        return Ok(Some(0));
    }
    read_some(cursor, out)
}

// The lengths of both lists, or none where a letter of either is too large.
fn both(lead: Option<usize>, cycle: Option<usize>) -> Option<Lengths>
    ensures { result ≡ both_counted lead cycle }
{
    Some(Lengths {
        lead: lead?,
        cycle: cycle?,
    })
}

// After `(finite`.
fn read_finite(cursor: &mut Cursor, lead: &mut [Letter]) -> Result<Option<Lengths>, Fault>
    requires { CursorIn cursor.old.line.now cursor.old.at 0 }
    ensures { (m : List ℕ) → ListsRead finite_rest cursor.old.line.now cursor.old.at lead.old m lead.new m result }
{
    let count = read_further(cursor, lead, Some(0))?;
    cursor.end()?;
    Ok(both(count, Some(0)))
}

// After `(lasso (`.
fn read_lasso(
    cursor: &mut Cursor,
    lead: &mut [Letter],
    cycle: &mut [Letter],
) -> Result<Option<Lengths>, Fault>
    requires { CursorIn cursor.old.line.now cursor.old.at 0 }
    ensures { ListsRead lasso_rest cursor.old.line.now cursor.old.at lead.old cycle.old lead.new cycle.new result }
{
    let leads = read_list(cursor, lead)?;
    cursor.expect(b" (")?;
    let loops = read_some(cursor, cycle)?;
    cursor.expect(b")")?;
    cursor.end()?;
    Ok(both(leads, loops))
}

// A trace line; no lengths where a letter is too large. Its two lists stay two parameters, as C lends them.
fn read_lists(
    line: &[u8],
    lead: &mut [Letter],
    cycle: &mut [Letter],
) -> Result<Option<Lengths>, Fault>
    requires { length line.now ≤ most_bytes }
    ensures { ListsRead whole_line line.now 0 lead.old cycle.old lead.new cycle.new result }
{
    let mut cursor = Cursor { line, at: 0 };
    let no_finite = match cursor.expect(b"(finite") {
        Ok(()) => return read_finite(&mut cursor, lead),
        Err(fault) => fault,
    };
    let no_lasso = match cursor.expect(b"(lasso (") {
        Ok(()) => return read_lasso(&mut cursor, lead, cycle),
        Err(fault) => fault,
    };
    Err(no_finite.further(no_lasso))
}

// A trace line's letters into the two lent lists. They are read into lists with room for all that a verdict takes, and copied where nothing is to be refused.
pub fn read_trace(
    line: &[u8],
    lead: &mut [Letter],
    cycle: &mut [Letter],
) -> Result<Lengths, Refusal>
    ensures { TraceAnswer line.now lead.old cycle.old result lead.new cycle.new }
{
    if scan::MOST_BYTES < line.len() {
        return Err(Refusal::LongLine);
    }
    let mut leads = [0; MOST_LETTERS];
    let mut loops = [0; MOST_LETTERS];
    let lengths = read_lists(line, &mut leads, &mut loops)?.ok_or(Refusal::LargeLetter)?;
    if MOST_LETTERS < lengths.lead || MOST_LETTERS - lengths.lead < lengths.cycle {
        return Err(Refusal::ManyLetters);
    }
    if lead.len() < lengths.lead || cycle.len() < lengths.cycle {
        return Err(Refusal::ListRoom);
    }
    copy_front(&leads[..lengths.lead], lead);
    copy_front(&loops[..lengths.cycle], cycle);
    Ok(lengths)
}
