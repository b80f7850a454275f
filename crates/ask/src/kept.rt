// What is kept between requests, and the answers to them, without the byte 10 with which each ends.
use crate::faults::Fault;
use crate::lists::KeptList;
use crate::requests::Request;
use arrayvec::ArrayVec;
use formula_lines::read_formula;
use logic::Letter;
use ltl::check_ltl;
use ltl_verdict::ltl_verdict;
use node_lines::write_node;
use psl::check_psl;
use psl_verdict::psl_verdict;
use std::alloc::{AllocError, Global};
use std::io;
use std::io::Write;
use table::{Node, NodeNo, nodes_of};
use trace::{Moment, Refusal, TraceView};
use trace_lines::read_trace;
use translate::translate;

// A table of 4,096 nodes and more, so that one that is too long can be asked about.
const TABLE_ROOM: usize = 16384;

const LETTER_ROOM: usize = 256;

// The requests, a line each but for the last, whose end every answer has.
const HELP: &str = "formula LINE      reads a formula line; its table becomes the PSL table
check-psl N ..    the numbers become the PSL table, three a node, and are checked; without numbers, the table is
check-ltl N ..    the same for the LTL table
translate         the translation of the PSL table becomes the LTL table
trace LINE        reads a trace line; its letters become the trace
lead-in N ..      the letters become the trace's lead-in
loop N ..         the letters become the trace's loop
psl-verdict       of the PSL table on the trace
ltl-verdict       of the LTL table on the trace
letter M          the letter of moment M
rest M            the rest of the list that moment M falls in
node I K L R      the line of node I: its kind, its two places
nodes             the lines of the LTL table
show-psl          the numbers of the PSL table; show-psl N: the first N places of its list
show-ltl          the same of the LTL table
room N            each list lent to an operation has at most N places from now on
# ..              a remark, which is repeated";

// Both tables and the trace, and how many places of a list an operation is lent at most.
#[derive(Drop)]
pub struct Kept {
    psl: KeptList<u16>,
    ltl: KeptList<u16>,
    lead: KeptList<Letter>,
    cycle: KeptList<Letter>,
    room: usize,
}

// Room for the text of some hundred numbers, and for that of one with the space before it.
const TEXT_ROOM: usize = 2048;

const NUMBER_ROOM: usize = 21;

// A number in decimal, of which there is room. One digit or two, as most numbers of a table have, are put as bytes.
fn put(text: &mut ArrayVec<u8, TEXT_ROOM>, n: u64) {
    if n < 10 {
        let _room = text.try_push(b'0' + n as u8);
        return;
    }
    if n < 100 {
        let _tens = text.try_push(b'0' + (n / 10) as u8);
        let _ones = text.try_push(b'0' + (n % 10) as u8);
        return;
    }
    let mut digits = itoa::Buffer::new();
    let _room = text.try_extend_from_slice(digits.format(n).as_bytes());
}

// The members of a list with a space between them. Many at a time, and not by `Display`: with `write!` for each number a list took four times as long.
fn write_list<T: Copy>(list: &[T], out: &mut impl Write) -> io::Result<()>
where
    u64: From<T>,
{
    let Some((first, others)) = list.split_first() else {
        return write!(out, "none");
    };
    let mut text: ArrayVec<u8, TEXT_ROOM> = ArrayVec::new();
    put(&mut text, u64::from(*first));
    for x in others {
        if text.remaining_capacity() < NUMBER_ROOM {
            out.write_all(&text)?;
            text.clear();
        }
        let _room = text.try_push(b' ');
        put(&mut text, u64::from(*x));
    }
    out.write_all(&text)
}

// A node's line without its byte 10, or why there is none. As many bytes of an array are lent for it, as C lends
// them, as the room allows.
fn write_line(no: NodeNo, node: Node<u16>, room: usize, out: &mut impl Write) -> io::Result<()> {
    let mut line = [0u8; 64];
    let n = room.min(line.len());
    match write_node(no, node, &mut line[..n]) {
        Ok(length) => out.write_all(line[..length].trim_ascii_end()),
        Err(x) => write!(out, "{}", Fault::Refused(x)),
    }
}

// Each node of a table, a line each. As one function with `write_list` the two would be a separator and a closure each.
fn write_lines(table: &[u16], room: usize, out: &mut impl Write) -> io::Result<()> {
    let nodes = nodes_of(table);
    if nodes.is_empty() {
        return write!(out, "none");
    }
    for (i, node) in nodes.iter().enumerate() {
        if 0 < i {
            out.write_all(b"\n")?;
        }
        write_line(NodeNo::from_index(i), Node::from(*node), room, out)?;
    }
    Ok(())
}

// The numbers become the table, which is then checked; without numbers it stays. It is kept also where the check refuses it.
fn check<C: FnOnce(&[u16]) -> Result<(), Refusal>>(
    table: &mut KeptList<u16>,
    numbers: &[u16],
    operation: C,
    out: &mut impl Write,
) -> Result<(), Fault>
    requires { C.IsAlwaysCallable operation }
{
    if !numbers.is_empty() {
        table.replace(numbers)?;
    }
    operation(table.used())?;
    Ok(write!(out, "accepted")?)
}

// An operation makes a table in as many places as it is lent, and tells how many nodes it has: three numbers a node.
fn make<M: FnOnce(&mut [u16]) -> Result<usize, Refusal>>(
    table: &mut KeptList<u16>,
    room: usize,
    operation: M,
    out: &mut impl Write,
) -> Result<(), Fault>
    requires { M.IsAlwaysCallable operation }
{
    let nodes = operation(table.front_mut(room))?;
    table.set_used(nodes.saturating_mul(3));
    Ok(write!(out, "nodes {nodes}")?)
}

// The numbers in use, or as many places as are asked for.
fn show(table: &KeptList<u16>, places: Option<usize>, out: &mut impl Write) -> Result<(), Fault> {
    let shown = match places {
        Some(n) => table.front(n),
        None => table.used(),
    };
    Ok(write_list(shown, out)?)
}

impl Kept {
    pub fn new(alloc: Global) -> Result<Kept, AllocError> {
        Ok(Kept {
            psl: KeptList::new(alloc, TABLE_ROOM, 0)?,
            ltl: KeptList::new(alloc, TABLE_ROOM, 0)?,
            lead: KeptList::new(alloc, LETTER_ROOM, 0)?,
            cycle: KeptList::new(alloc, LETTER_ROOM, 0)?,
            room: TABLE_ROOM,
        })
    }

    fn trace(&self) -> TraceView<'_> {
        TraceView::new(self.lead.used(), self.cycle.used())
    }

    fn read_trace(&mut self, line: &[u8], out: &mut impl Write) -> Result<(), Fault> {
        let lead = self.lead.front_mut(self.room);
        let cycle = self.cycle.front_mut(self.room);
        let lengths = read_trace(line, lead, cycle)?;
        self.lead.set_used(lengths.lead);
        self.cycle.set_used(lengths.cycle);
        self.write_lengths(out)
    }

    // A verdict of a table on the trace.
    fn write_verdict<V>(
        &self,
        operation: V,
        table: &[u16],
        out: &mut impl Write,
    ) -> Result<(), Fault>
    where
        V: FnOnce(&[u16], TraceView<'_>) -> Result<bool, Refusal>,
        requires { V.IsAlwaysCallable operation }
    {
        let yes = operation(table, self.trace())?;
        let word = if yes { "yes" } else { "no" };
        Ok(write!(out, "{word}")?)
    }

    fn write_letter(&self, m: Moment, out: &mut impl Write) -> Result<(), Fault> {
        let letter = self.trace().letter(m)?;
        Ok(write!(out, "{letter}")?)
    }

    fn write_rest(&self, m: Moment, out: &mut impl Write) -> Result<(), Fault> {
        Ok(write_list(self.trace().rest(m), out)?)
    }

    fn write_lengths(&self, out: &mut impl Write) -> Result<(), Fault> {
        let lead = self.lead.used().len();
        let cycle = self.cycle.used().len();
        Ok(write!(out, "lead-in {lead} loop {cycle}")?)
    }

    fn set_room(&mut self, n: usize, out: &mut impl Write) -> Result<(), Fault> {
        self.room = n;
        Ok(write!(out, "room {n}")?)
    }

    // The one answer to a request. Where an operation refuses, its lists stay.
    pub fn answer(&mut self, request: Request, out: &mut impl Write) -> Result<(), Fault> {
        let room = self.room;
        match request {
            Request::Formula(line) => make(&mut self.psl, room, |t| read_formula(line, t), out),
            Request::Translate => {
                let psl = self.psl.used();
                make(&mut self.ltl, room, |t| translate(psl, t), out)
            }
            Request::CheckPsl(numbers) => check(&mut self.psl, &numbers, check_psl, out),
            Request::CheckLtl(numbers) => check(&mut self.ltl, &numbers, check_ltl, out),
            Request::Trace(line) => self.read_trace(line, out),
            // The two lists of a trace, one a request.
            Request::LeadIn(letters) => {
                self.lead.replace(&letters)?;
                self.write_lengths(out)
            }
            Request::Loop(letters) => {
                self.cycle.replace(&letters)?;
                self.write_lengths(out)
            }
            Request::Room(n) => self.set_room(n, out),
            Request::PslVerdict => self.write_verdict(psl_verdict, self.psl.used(), out),
            Request::LtlVerdict => self.write_verdict(ltl_verdict, self.ltl.used(), out),
            Request::Letter(m) => self.write_letter(m, out),
            Request::Rest(m) => self.write_rest(m, out),
            Request::Node(no, node) => Ok(write_line(no, node, room, out)?),
            Request::Nodes => Ok(write_lines(self.ltl.used(), room, out)?),
            Request::ShowPsl(places) => show(&self.psl, places, out),
            Request::ShowLtl(places) => show(&self.ltl, places, out),
            Request::Help => Ok(write!(out, "{HELP}")?),
            Request::Remark(line) => Ok(out.write_all(line)?),
        }
    }
}
