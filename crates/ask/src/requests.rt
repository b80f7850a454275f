// Requests in words: see README.
use crate::faults::Fault;
use logic::Letter;
use std::alloc::Global;
use std::str;
use table::{Node, NodeNo};
use text::numbers::decimal;
use trace::Moment;

#[derive(Drop)]
pub enum Request<'a> {
    Formula(&'a [u8]),
    CheckPsl(Vec<u16>),
    CheckLtl(Vec<u16>),
    Translate,
    Trace(&'a [u8]),
    LeadIn(Vec<Letter>),
    Loop(Vec<Letter>),
    PslVerdict,
    LtlVerdict,
    Letter(Moment),
    Rest(Moment),
    Node(NodeNo, Node<u16>),
    Nodes,
    ShowPsl(Option<usize>),
    ShowLtl(Option<usize>),
    Room(usize),
    Help,
    Remark(&'a [u8]),
}

// A number in decimal, as lines have it: without a sign or leading zeros.
fn number<T: TryFrom<u64>>(digits: &[u8]) -> Result<T, Fault>
where
    T::Error: Drop,
{
    let n = decimal(digits).ok_or(Fault::NotUnderstood)?;
    T::try_from(n).ok().ok_or(Fault::NotUnderstood)
}

// Numbers with one space between them, or none at all.
fn numbers<T: TryFrom<u64> + Drop>(alloc: Global, list: Option<&[u8]>) -> Result<Vec<T>, Fault>
where
    T::Error: Drop,
{
    let mut all = Vec::new(alloc);
    if let Some(list) = list {
        for digits in list.split(|b| *b == b' ') {
            all.push(number(digits)?)?;
        }
    }
    Ok(all)
}

// A node's number, its kind and its two places.
fn node<'a>(numbers: &[u16]) -> Result<Request<'a>, Fault> {
    match numbers {
        [no, kind, left, right] => Ok(Request::Node(
            NodeNo(*no),
            Node::from([*kind, *left, *right]),
        )),
        _ => Err(Fault::NotUnderstood),
    }
}

// The request of a word and what follows it after a space.
fn request_of<'a>(
    alloc: Global,
    word: &str,
    about: Option<&'a [u8]>,
) -> Result<Request<'a>, Fault> {
    let request = match (word, about) {
        ("formula", _) => Request::Formula(about.unwrap_or_default()),
        ("check-psl", _) => Request::CheckPsl(numbers(alloc, about)?),
        ("check-ltl", _) => Request::CheckLtl(numbers(alloc, about)?),
        ("translate", None) => Request::Translate,
        ("trace", _) => Request::Trace(about.unwrap_or_default()),
        ("lead-in", _) => Request::LeadIn(numbers(alloc, about)?),
        ("loop", _) => Request::Loop(numbers(alloc, about)?),
        ("psl-verdict", None) => Request::PslVerdict,
        ("ltl-verdict", None) => Request::LtlVerdict,
        ("letter", Some(m)) => Request::Letter(Moment(number(m)?)),
        ("rest", Some(m)) => Request::Rest(Moment(number(m)?)),
        ("node", _) => node(&numbers(alloc, about)?)?,
        ("nodes", None) => Request::Nodes,
        ("show-psl", None) => Request::ShowPsl(None),
        ("show-psl", Some(n)) => Request::ShowPsl(Some(number(n)?)),
        ("show-ltl", None) => Request::ShowLtl(None),
        ("show-ltl", Some(n)) => Request::ShowLtl(Some(number(n)?)),
        ("room", Some(n)) => Request::Room(number(n)?),
        ("help", None) => Request::Help,
        _ => return Err(Fault::NotUnderstood),
    };
    Ok(request)
}

impl<'a> Request<'a> {
    // A word and, after one space, what it is about. A line that begins with # is a remark.
    pub fn parse(alloc: Global, line: &'a [u8]) -> Result<Request<'a>, Fault> {
        if line.starts_with(b"#") {
            return Ok(Request::Remark(line));
        }
        let mut parts = line.splitn(2, |b| *b == b' ');
        let word = parts.next().unwrap_or_default();
        let word = str::from_utf8(word).unwrap_or_default();
        request_of(alloc, word, parts.next())
    }
}
