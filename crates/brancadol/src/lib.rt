// The library for C: each operation with its answer as one number. `include/brancadol.h` declares it.
//
// Lists come first and numbers after them, so that no list, which is two words, begins in the sixth word of a call: what begins there goes half in a register
// here and in C, but not in Rust.
#![tactic(auto)]

mod value;

ghost use Rattle.std.specs.Prelude.{◌≡◌, ◌%◌, length};
ghost use Rattle.std.proofs.lemmas.List.Edits.{sets};
ghost use Rattle.logic.specs.Trace.{letter_at};
ghost use Rattle.trace.specs.Answer.{rest_of, found};
ghost use Rattle.table.specs.Answer.{checked};
ghost use Rattle.psl.specs.Check.{psl_refusal};
ghost use Rattle.ltl.specs.Check.{ltl_refusal};
ghost use Rattle.table.specs.Node.{node};
ghost use Rattle.node_lines.specs.Spelling.{node_line};
ghost use Rattle.node_lines.specs.NodeAnswer.{node_answer, node_list};
ghost use Rattle.brancadol.specs.Coded.{code, success_code, place_value, refusal_code, answer_code, found_code, checked_code, count_code};
ghost use Rattle.brancadol.specs.Answer.{letter_after, PslCoded, LtlCoded, TranslationCoded, FormulaCoded, TraceCoded};

use crate::value::Value;
use logic::Letter;
use table::{Node, NodeNo};
use trace::{Moment, Refusal, TraceView};

// How many values an answer has room for: 2^56.
const VALUES: u64 = 72057594037927936;

// An answer: 0 or a refusal's number, and a value. These functions stand for conversions of the library, since C is answered one number.
fn coded(number: u8, value: u64) -> u64
    ensures { result ≡ code number value }
{
    u64::from(number) + 256 * (value % VALUES)
}

fn success_code(value: u64) -> u64
    ensures { result ≡ success_code value }
{
    coded(0, value)
}

// 0, or 1 + the place. What an answer has no room for is left out before the sum, which stays below 2^64 so.
fn place_value(place: Option<usize>) -> u64
    ensures { result % 72057594037927936 ≡ place_value place % 72057594037927936 }
{
    match place {
        None => 0,
        Some(p) => 1 + (p as u64) % VALUES,
    }
}

fn refusal_code(x: Refusal) -> u64
    ensures { result ≡ refusal_code x }
{
    let (number, place) = x.told();
    coded(number, place_value(place))
}

// The code of any answer.
fn answer_code<T: Value>(a: Result<T, Refusal>) -> u64
    ensures { result ≡ answer_code T.value a }
{
    match a {
        Ok(x) => success_code(x.value()),
        Err(x) => refusal_code(x),
    }
}

// The letter into the lent place, which a refusal leaves as it was. A match of its own: the code has no room for a letter.
fn put_letter(a: Result<Letter, Refusal>, letter: &mut Letter) -> u64
    ensures { (result ≡ found_code a) × (letter.new ≡ letter_after a letter.old) }
{
    match a {
        Ok(x) => {
            *letter = x;
            success_code(0)
        }
        Err(e) => refusal_code(e),
    }
}

#[unsafe(no_mangle)]
pub extern "C" fn brancadol_letter_at<'a>(
    lead: &'a [Letter],
    cycle: &'a [Letter],
    moment: usize,
    letter: &mut Letter,
) -> u64
    ensures value { result ≡ found_code (found (letter_at lead.now cycle.now moment)) }
    ensures stored { letter.new ≡ letter_after (found (letter_at lead.now cycle.now moment)) letter.old }
{
    put_letter(trace::letter_of(lead, cycle, Moment(moment)), letter)
}

// The letters of a part into a lent list from its start on, as many as have room. Not by `text::copy::copy_front`, which goes over a part to its end: a part may be long where the list is short.
fn copy_letters(part: &[Letter], out: &mut [Letter])
    ensures { out.new ≡ sets out.old 0 part.now }
{
    let end = part.len().min(out.len());
    for i in 0..end {
        out[i] = part[i];
    }
}

// The length of the part; its letters stand in the lent list, as many as have room.
#[unsafe(no_mangle)]
pub extern "C" fn brancadol_rest<'a>(
    lead: &'a [Letter],
    cycle: &'a [Letter],
    out: &mut [Letter],
    moment: usize,
) -> u64
    ensures value { result ≡ success_code (length (rest_of lead.now cycle.now moment)) }
    ensures out_after { out.new ≡ sets out.old 0 (rest_of lead.now cycle.now moment) }
{
    let part = trace::rest_of(lead, cycle, Moment(moment));
    copy_letters(part, out);
    success_code(part.len() as u64)
}

#[unsafe(no_mangle)]
pub extern "C" fn brancadol_check_psl(table: &[u16]) -> u64
    ensures { result ≡ checked_code (checked (psl_refusal table.now)) }
{
    answer_code(psl::check_psl(table))
}

#[unsafe(no_mangle)]
pub extern "C" fn brancadol_check_ltl(table: &[u16]) -> u64
    ensures { result ≡ checked_code (checked (ltl_refusal table.now)) }
{
    answer_code(ltl::check_ltl(table))
}

#[unsafe(no_mangle)]
pub extern "C" fn brancadol_psl_verdict(table: &[u16], lead: &[Letter], cycle: &[Letter]) -> u64
    ensures { PslCoded table.now lead.now cycle.now result }
{
    answer_code(psl_verdict::psl_verdict(table, TraceView::new(lead, cycle)))
}

#[unsafe(no_mangle)]
pub extern "C" fn brancadol_ltl_verdict(table: &[u16], lead: &[Letter], cycle: &[Letter]) -> u64
    ensures { LtlCoded table.now lead.now cycle.now result }
{
    answer_code(ltl_verdict::ltl_verdict(table, TraceView::new(lead, cycle)))
}

#[unsafe(no_mangle)]
pub extern "C" fn brancadol_translate(table: &[u16], out: &mut [u16]) -> u64
    ensures { TranslationCoded table.now out.old result out.new }
{
    answer_code(translate::translate(table, out))
}

#[unsafe(no_mangle)]
pub extern "C" fn brancadol_read_formula(line: &[u8], out: &mut [u16]) -> u64
    ensures { FormulaCoded line.now out.old result out.new }
{
    answer_code(formula_lines::read_formula(line, out))
}

#[unsafe(no_mangle)]
pub extern "C" fn brancadol_read_trace(
    line: &[u8],
    lead: &mut [Letter],
    cycle: &mut [Letter],
) -> u64
    ensures { TraceCoded line.now lead.old cycle.old result lead.new cycle.new }
{
    answer_code(trace_lines::read_trace(line, lead, cycle))
}

// C has no nodes: it gives the four numbers.
#[unsafe(no_mangle)]
pub extern "C" fn brancadol_write_node(
    own: u16,
    kind: u16,
    left: u16,
    right: u16,
    out: &mut [u8],
) -> u64
    ensures { (result ≡ count_code (node_answer own (node kind left right) (length out.old))) × (out.new ≡ node_list (node_answer own (node kind left right) (length out.old)) (node_line own (node kind left right)) out.old) }
{
    answer_code(node_lines::write_node(NodeNo(own), Node { kind, left, right }, out))
}
