// Traces: the letter of a moment, and the rest of the list that a moment falls in; what a verdict on a trace answers.
#![tactic(auto)]

mod refusal;

ghost use Rattle.std.specs.Prelude.{◌≡◌, Ok};
ghost use Rattle.logic.specs.Trace.{size};
ghost use Rattle.trace.specs.Answer.{LetterIs, RestIs};

use logic::Letter;
pub use refusal::Refusal;

// The most letters, in both lists together, that a verdict takes.
pub const MOST_LETTERS: usize = 64;

// A point of time, counted from 0 along a trace.
#[derive(Clone, Copy, Debug, PartialEq, Eq, PartialOrd, Ord)]
pub struct Moment(pub usize);

// Whether a claim holds on a trace: true is yes.
pub type Verdict = Result<bool, Refusal>;

// Yes or no.
pub fn decided(b: bool) -> Verdict
    ensures { result ≡ Ok b }
{
    Ok(b)
}

// The letter of a moment. In the code the loop list is called `cycle`, since `loop` is a keyword.
pub fn letter_at<'a>(lead: &'a [Letter], cycle: &'a [Letter], m: Moment) -> Result<Letter, Refusal>
    ensures { LetterIs lead.now cycle.now m.0 result }
{
    let at = m.0;
    if at < lead.len() {
        return Ok(lead[at]);
    }
    match (at - lead.len()).checked_rem(cycle.len()) {
        Some(i) => Ok(cycle[i]),
        None => Err(Refusal::NoMoment),
    }
}

// The rest of the list that a moment falls in, from that letter on.
pub fn rest<'a>(lead: &'a [Letter], cycle: &'a [Letter], m: Moment) -> &'a [Letter]
    ensures { RestIs lead.entry cycle.entry m.0 result }
{
    match m.0.checked_sub(lead.len()) {
        None => &lead[m.0..],
        Some(past) => &cycle[past.min(cycle.len())..],
    }
}

// A trace looked at through its two lists.
#[derive(Clone, Copy)]
pub struct TraceView<'a> {
    pub lead: &'a [Letter],
    pub cycle: &'a [Letter],
}

impl<'a> TraceView<'a> {
    pub fn new(lead: &'a [Letter], cycle: &'a [Letter]) -> TraceView<'a>
        ensures { (result.lead ≡ lead.entry) × (result.cycle ≡ cycle.entry) }
    {
        TraceView { lead, cycle }
    }

    // How many letters the two lists have together.
    pub fn size(self) -> usize
        ensures { result ≡ size self.entry.lead.now self.entry.cycle.now }
    {
        self.lead.len() + self.cycle.len()
    }

    pub fn letter(self, m: Moment) -> Result<Letter, Refusal>
        ensures { LetterIs self.entry.lead.now self.entry.cycle.now m.0 result }
    {
        letter_at(self.lead, self.cycle, m)
    }

    pub fn rest(self, m: Moment) -> &'a [Letter]
        ensures { RestIs self.entry.lead self.entry.cycle m.0 result }
    {
        rest(self.lead, self.cycle, m)
    }
}

// The letter of a moment by way of the view, for callers with plain parameters: the view over covered functions on the slices is a form that the project asks for, so all three stay.
pub fn letter_of<'a>(lead: &'a [Letter], cycle: &'a [Letter], m: Moment) -> Result<Letter, Refusal>
    ensures { LetterIs lead.now cycle.now m.0 result }
{
    TraceView::new(lead, cycle).letter(m)
}

// The rest of the list that a moment falls in, by way of the view.
pub fn rest_of<'a>(lead: &'a [Letter], cycle: &'a [Letter], m: Moment) -> &'a [Letter]
    ensures { RestIs lead.entry cycle.entry m.0 result }
{
    TraceView::new(lead, cycle).rest(m)
}
