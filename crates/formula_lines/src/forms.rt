// Forms in nested brackets, read by functions that call each other.
ghost use Rattle.std.specs.Prelude.{◌≡◌, ◌≤◌, length};
ghost use Rattle.formula_lines.specs.Inner.Kinds.{short_number, number, kinds};
ghost use Rattle.formula_lines.specs.Inner.Writes.{full};
ghost use Rattle.text.specs.Inner.Places.{Only, Stops};
ghost use Rattle.formula_lines.specs.Inner.Reader.{sort_number, InBrackets, KeywordRead, ReadAgain, ClosesTwo, ReadFrom, FormRead, OperandsRead};

use crate::keywords::{Keyword, Parts, Short, Sort, parts_of, starting, word};
use crate::nodes::{
    FULL, close_one, put_ahead, put_between, put_both, put_forever, put_leaf, put_not_without,
    put_over, put_strong_true,
};
use logic::SIGNALS;
use psl::Kind;
use text::scan;
use text::scan::{Cursor, Fault};

// The largest signal.
const LARGEST_SIGNAL: u64 = SIGNALS as u64 - 1;

// What was read: the count of nodes then, and whether a signal is too large. The refusal of too many nodes comes first, so both are told.
#[derive(Clone, Copy)]
pub(crate) struct Read {
    pub(crate) nodes: usize,
    pub(crate) large: bool,
}

// The keyword of a form of a sort.
fn read_keyword(cursor: &mut Cursor, sort: Sort) -> Result<Keyword, Fault>
    requires { cursor.old.at ≤ length cursor.old.line.now }
    ensures line { cursor.new.line.now ≡ cursor.old.line.now }
    ensures read { KeywordRead (kinds (sort_number sort)) cursor.old.line.now cursor.old.at cursor.new.at result }
{
    let first = scan::byte(cursor.line, cursor.at).unwrap_or(0); // with 0 none begins
    let mut fault = Fault(cursor.at);
    for keyword in starting(sort, first) {
        match cursor.expect(word(*keyword)) {
            Ok(()) => return Ok(*keyword),
            Err(other) => fault = fault.further(other),
        }
    }
    Err(fault)
}

// `true`, where a Boolean is due.
fn read_true(cursor: &mut Cursor, sort: Sort, out: &mut [u16], n: usize) -> Result<Read, Fault>
    requires place { ReadFrom cursor.old.line.now cursor.old.at n }
    requires no_bracket { Stops (Only 40) cursor.old.line.now cursor.old.at cursor.old.at }
    ensures line { cursor.new.line.now ≡ cursor.old.line.now }
    ensures read { FormRead (sort_number sort) cursor.old.line.now cursor.old.at cursor.new.at n out.old out.new result }
{
    let Sort::Boolean = sort else {
        return Err(Fault(cursor.at));
    };
    cursor.expect(b"true")?;
    Ok(Read {
        nodes: put_leaf(out, n, Kind::True, 0),
        large: false,
    })
}

// A signal's number.
fn read_signal(cursor: &mut Cursor, out: &mut [u16], n: usize) -> Result<Read, Fault>
    requires { ReadFrom cursor.old.line.now cursor.old.at n }
    ensures line { cursor.new.line.now ≡ cursor.old.line.now }
    ensures read { OperandsRead 1 cursor.old.line.now cursor.old.at cursor.new.at n out.old out.new result }
{
    let signal = cursor.number(LARGEST_SIGNAL)?;
    let value = signal.unwrap_or(0) as u16; // within the limit, so that it fits
    Ok(Read {
        nodes: put_leaf(out, n, Kind::Var, value),
        large: signal.is_none(),
    })
}

// A form of a sort: `true`, or a keyword and its operands in brackets.
#[cycle(reader)]
pub(crate) fn read_form(
    cursor: &mut Cursor,
    sort: Sort,
    out: &mut [u16],
    n: usize,
) -> Result<Read, Fault>
    requires { ReadFrom cursor.old.line.now cursor.old.at n }
    ensures line { cursor.new.line.now ≡ cursor.old.line.now }
    ensures read { FormRead (sort_number sort) cursor.old.line.now cursor.old.at cursor.new.at n out.old out.new result }
{
    if !cursor.accept(b'(') {
        return read_true(cursor, sort, out, n);
    }
    let keyword = read_keyword(cursor, sort)?;
    let read = read_operands(cursor, keyword, out, n)?;
    cursor.expect(b")")?;
    Ok(read)
}

// The operands of a keyword: a number, one form, or two. Its own nodes are written with them.
#[cycle(reader)]
fn read_operands(
    cursor: &mut Cursor,
    keyword: Keyword,
    out: &mut [u16],
    n: usize,
) -> Result<Read, Fault>
    requires place { ReadFrom cursor.old.line.now cursor.old.at n }
    requires kind { InBrackets (number keyword) }
    ensures line { cursor.new.line.now ≡ cursor.old.line.now }
    ensures read { OperandsRead (number keyword) cursor.old.line.now cursor.old.at cursor.new.at n out.old out.new result }
{
    match parts_of(keyword) {
        Parts::Signal => read_signal(cursor, out, n),
        Parts::One(sort) => {
            let start = put_ahead(out, n, keyword);
            let read = read_form(cursor, sort, out, start)?;
            Ok(Read {
                nodes: close_one(out, start, read.nodes, keyword),
                large: read.large,
            })
        }
        Parts::Two(first, second) => {
            let at = cursor.at;
            let before = read_form(cursor, first, out, n)?;
            let start = put_between(out, before.nodes, keyword);
            cursor.expect(b" ")?;
            let then = cursor.at;
            let after = read_form(cursor, second, out, start)?;
            Ok(Read {
                nodes: close_two(cursor.line, at, then, keyword, out, start, after.nodes),
                large: before.large | after.large,
            })
        }
    }
}

// What a kind has behind its two operands, which stand at places `at` and `then`.
#[cycle(reader)]
fn close_two(
    line: &[u8],
    at: usize,
    then: usize,
    keyword: Keyword,
    out: &mut [u16],
    start: usize,
    n: usize,
) -> usize
    requires first { ReadFrom line.now at n }
    requires second { (at ≤ then) × (then ≤ length line.now) × (start ≤ full) }
    ensures few { result ≤ full }
    ensures nodes { ClosesTwo (number keyword) line.now at then start n out.old result out.new }
{
    match keyword {
        Keyword::Node(kind) => put_both(out, n, kind, start),
        Keyword::Short(short) => close_short_two(line, at, then, short, out, start, n),
    }
}

// What a short form has behind its two operands. Of `iff` both stand twice in the spelled-out line, of `wuntil` the first.
#[cycle(reader)]
fn close_short_two(
    line: &[u8],
    at: usize,
    then: usize,
    short: Short,
    out: &mut [u16],
    start: usize,
    n: usize,
) -> usize
    requires first { ReadFrom line.now at n }
    requires second { (at ≤ then) × (then ≤ length line.now) × (start ≤ full) }
    ensures few { result ≤ full }
    ensures nodes { ClosesTwo (short_number short) line.now at then start n out.old result out.new }
{
    match short {
        Short::Iff => {
            let forth = put_not_without(out, start, n);
            let second = read_again(line, then, out, forth);
            let turned = put_between(out, second, Keyword::Short(short));
            let first = read_again(line, at, out, turned);
            let back = put_not_without(out, turned, first);
            put_both(out, back, Kind::And, forth)
        }
        Short::WeakUntil => {
            let until = put_both(out, n, Kind::Until, start);
            let not_until = put_over(out, until, Kind::Not);
            let moment = put_strong_true(out, not_until);
            let first = read_again(line, at, out, moment);
            let always = put_forever(out, moment, first);
            put_not_without(out, not_until, always)
        }
        Short::Before => {
            let sooner = put_both(out, n, Kind::Until, start);
            put_over(out, sooner, Kind::Not)
        }
        _ => put_not_without(out, start, n), // or, implies; the others have one operand
    }
}

// A formula that was read already, once more. Not where there are more nodes than a table may have: there nothing is written any more, and nested `iff` would take time that doubles with each.
#[cycle(reader)]
fn read_again(line: &[u8], at: usize, out: &mut [u16], n: usize) -> usize
    requires { ReadFrom line.now at n }
    ensures few { result ≤ full }
    ensures nodes { ReadAgain line.now at n out.old result out.new }
{
    if FULL <= n {
        return n;
    }
    let mut cursor = Cursor { line, at };
    match read_form(&mut cursor, Sort::Formula, out, n) {
        Ok(read) => read.nodes,
        Err(_) => n, // it was read without one
    }
}
