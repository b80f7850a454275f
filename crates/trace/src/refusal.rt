// The refusals: why an operation has no answer, and at which node or byte.
ghost use Rattle.std.specs.Prelude.{◌≡◌};
ghost use Rattle.trace.specs.Refusal.{told};

use thiserror::Error;

// Nodes are counted from 0 along their table, bytes along their line. Of tests of a node it carries the node being checked, not an operand of it.
#[derive(Clone, Copy, Debug, PartialEq, Eq, Error)]
pub enum Refusal {
    #[error("the PSL table's length is no multiple of 3, or it has no node, or more than 1,024")]
    PslLength,
    #[error("PSL node {node}: its kind is above 10")]
    PslKind { node: u16 },
    #[error("PSL node {node}: an unused place is not 0")]
    PslUnused { node: u16 },
    #[error("PSL node {node}: its signal is above 31")]
    PslSignal { node: u16 },
    #[error("PSL node {node}: an operand is not below it")]
    PslOperand { node: u16 },
    #[error("PSL node {node}: an operand is of the wrong sort")]
    PslSort { node: u16 },
    #[error("PSL node {node} is not an operand exactly once")]
    PslUse { node: u16 },
    #[error("PSL node {node}, the last, is Boolean")]
    PslRoot { node: u16 },
    #[error("the trace has more than 64 letters")]
    LongTrace,
    #[error("the lent list has no room for the LTL table")]
    TableRoom,
    #[error("the LTL table's length is no multiple of 3, or it has no node, or more than 4,096")]
    LtlLength,
    #[error("LTL node {node}: its kind is above 6")]
    LtlKind { node: u16 },
    #[error("LTL node {node}: an unused place is not 0")]
    LtlUnused { node: u16 },
    #[error("LTL node {node}: its signal is above 31")]
    LtlSignal { node: u16 },
    #[error("LTL node {node}: an operand is not below it")]
    LtlOperand { node: u16 },
    #[error("the trace is empty")]
    EmptyTrace,
    #[error("the line has more than 16,384 bytes")]
    LongLine,
    #[error("the line is not of the shape: it breaks at place {at}")]
    Shape { at: usize },
    #[error("the formula has more than 1,024 nodes")]
    ManyNodes,
    #[error("a signal of the formula is above 31")]
    LargeSignal,
    #[error("a letter of the trace is above 4,294,967,295")]
    LargeLetter,
    #[error("the trace line has more than 64 letters")]
    ManyLetters,
    #[error("a lent list is too short for what the line spells")]
    ListRoom,
    #[error("the lent list is too short for the node line")]
    LineRoom,
    #[error("the trace is finite and the moment is not below its length")]
    NoMoment,
}

// What a node is refused by.
fn of_node(number: u8, node: u16) -> (u8, Option<usize>)
    ensures { (result.0 ≡ number) × (result.1 ≡ Some node) }
{
    (number, Some(usize::from(node)))
}

impl Refusal {
    // The number by which it is known outside, and the place that it carries, if it does.
    pub fn told(self) -> (u8, Option<usize>)
        ensures { result ≡ told self }
    {
        match self {
            Refusal::PslLength => (1, None),
            Refusal::PslKind { node } => of_node(2, node),
            Refusal::PslUnused { node } => of_node(3, node),
            Refusal::PslSignal { node } => of_node(4, node),
            Refusal::PslOperand { node } => of_node(5, node),
            Refusal::PslSort { node } => of_node(6, node),
            Refusal::PslUse { node } => of_node(7, node),
            Refusal::PslRoot { node } => of_node(8, node),
            Refusal::LongTrace => (9, None),
            Refusal::TableRoom => (10, None),
            Refusal::LtlLength => (11, None),
            Refusal::LtlKind { node } => of_node(12, node),
            Refusal::LtlUnused { node } => of_node(13, node),
            Refusal::LtlSignal { node } => of_node(14, node),
            Refusal::LtlOperand { node } => of_node(15, node),
            Refusal::EmptyTrace => (16, None),
            Refusal::LongLine => (17, None),
            Refusal::Shape { at } => (18, Some(at)),
            Refusal::ManyNodes => (19, None),
            Refusal::LargeSignal => (20, None),
            Refusal::LargeLetter => (21, None),
            Refusal::ManyLetters => (22, None),
            Refusal::ListRoom => (23, None),
            Refusal::LineRoom => (24, None),
            Refusal::NoMoment => (25, None),
        }
    }
}
