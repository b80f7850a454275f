// Node lines: `(I kind)`, `(I kind P)` or `(I kind P Q)`, and byte 10.
#![tactic(auto)]

ghost use Rattle.std.specs.Prelude.{◌≡◌, min, length, false};
ghost use Rattle.std.proofs.lemmas.List.Edits.{sets};
ghost use Rattle.table.specs.Node.{node};
ghost use Rattle.table.specs.Answer.{checked};
ghost use Rattle.table.specs.Check.{node_refusal};
ghost use Rattle.table.specs.Inner.Place.{use_of};
ghost use Rattle.ltl.specs.Kind.{number};
ghost use Rattle.ltl.specs.Check.{ltl_rules};
ghost use Rattle.node_lines.specs.Spelling.{ltl_word, ltl_places, node_line};
ghost use Rattle.node_lines.specs.NodeAnswer.{node_answer, node_list};
ghost use Rattle.node_lines.specs.Inner.Writer.{used, Spelled, line_end};

use ltl::Kind;
use table::{Node, NodeNo, Place, check_node};
use text::copy::copy_front;
use text::lent::Lent;
use text::put::{Sink, put_byte, put_number};
use trace::Refusal;

// The most nodes of an LTL table.
const MOST_NODES: usize = ltl::MOST_NODES;

// Room for any node line; the longest has 26 bytes.
const LINE_ROOM: usize = 32;

// The word of a kind.
#[tactic(auto, unfolding(crate::specs::Spelling::ltl_word))]
fn word(kind: Kind) -> &'static [u8]
    ensures { result.now ≡ ltl_word (number kind) }
{
    match kind {
        Kind::True => b"true",
        Kind::Var => b"var",
        Kind::Not => b"not",
        Kind::And => b"and",
        Kind::Or => b"or",
        Kind::Next => b"next",
        Kind::Until => b"until",
    }
}

// 1 where a place is used.
fn used(place: Place) -> usize
    ensures { result ≡ used (use_of place) }
{
    usize::from(place != Place::Unused)
}

// How many of its two places a kind uses: the left one alone, or both.
fn places(kind: Kind) -> usize
    ensures { result ≡ ltl_places (number kind) }
{
    let (left, right) = table::Kind::places(kind);
    used(left) + used(right)
}

// The word of a kind, and how many places it uses; no word and no place of a number that is no kind.
fn spelled(kind: u16) -> (&'static [u8], usize)
    ensures { Spelled kind result.0.now result.1 }
{
    match Kind::try_from(kind) {
        Ok(k) => (word(k), places(k)),
        Err(_) => (b"", 0),
    }
}

// The numbers in a node's places, a space before each, and the line's end. By functions, as `text::put` says.
fn put_places<S: Sink>(out: &mut S, numbers: &[u16])
    ensures { S.Put out.old (line_end numbers.now) out.new }
{
    for n in numbers {
        put_byte(out, b' ');
        put_number(out, u64::from(*n));
    }
    out.put_text(b")\n");
}

// A node's line.
pub fn put_line<S: Sink>(out: &mut S, no: NodeNo, x: Node<u16>)
    ensures { S.Put out.old (node_line no.0 (node x.kind x.left x.right)) out.new }
{
    let (word, places) = spelled(x.kind);
    put_byte(out, b'(');
    put_number(out, u64::from(no.0));
    put_byte(out, b' ');
    out.put_text(word);
    put_places(out, &[x.left, x.right][..places]);
}

// A node's line at the front of a list; where it ends.
fn put_front(no: NodeNo, x: Node<u16>, line: &mut [u8]) -> usize
    ensures bytes { line.new ≡ sets line.old 0 (node_line no.0 (node x.kind x.left x.right)) }
    ensures ends { result ≡ min (length (node_line no.0 (node x.kind x.left x.right))) (length line.old) }
{
    let mut out = Lent::new(line, 0);
    put_line(&mut out, no, x);
    out.at
}

// What the LTL check says of a node.
fn check_alone(no: NodeNo, x: Node<u16>) -> Result<(), Refusal>
    ensures { result ≡ checked (node_refusal ltl_rules no.0 (node x.kind x.left x.right) false false) }
{
    check_node::<Kind>(no, x, (false, false))
}

// A node's line into the lent bytes: a list, since C lends one, of a node of any numbers, since C asks of any. It is written aside first, for its length, into an array with a count: putting into a
// vector calls memcpy, and the library for C is to call memset alone.
pub fn write_node(no: NodeNo, x: Node<u16>, out: &mut [u8]) -> Result<usize, Refusal>
    ensures value { result ≡ node_answer no.0 (node x.kind x.left x.right) (length out.old) }
    ensures out_after { out.new ≡ node_list result (node_line no.0 (node x.kind x.left x.right)) out.old }
{
    if MOST_NODES <= no.index() {
        return Err(Refusal::LtlLength);
    }
    check_alone(no, x)?;
    let mut line = [0u8; LINE_ROOM];
    let n = put_front(no, x, &mut line);
    if out.len() < n {
        return Err(Refusal::LineRoom);
    }
    copy_front(&line[..n], out);
    Ok(n)
}
