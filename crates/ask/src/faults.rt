// Why a line has no other answer, or a run ends before its input.
use std::alloc::AllocError;
use std::fmt::{Display, Formatter};
use std::{fmt, io};
use thiserror::Error;
use trace::Refusal;

// A refusal's number and, where it carries one, its place.
#[derive(Clone, Copy)]
struct Told(Refusal);

impl Display for Told {
    fn fmt<W: fmt::Write>(&self, f: &mut Formatter<W>) -> fmt::Result {
        match self.0.told() {
            (number, None) => write!(f, "{number}"),
            (number, Some(place)) => write!(f, "{number} {place}"),
        }
    }
}

#[derive(Debug, Drop, Error)]
pub enum Fault {
    #[error("not understood: try help")]
    NotUnderstood,
    // By its number, which README tells of, and its place, and not by the refusal's own words.
    #[error("refused {}", Told(*.0))]
    Refused(#[from] Refusal),
    #[error("standard input: {0}")]
    Input(io::Error),
    #[error("standard output: {0}")]
    Output(#[from] io::Error),
    #[error(transparent)]
    Memory(#[from(alloc)] AllocError),
}
