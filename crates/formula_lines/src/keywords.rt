// The words that a bracket opens with, and what stands behind each.
ghost use Rattle.std.specs.Prelude.{◌≡◌, map};
ghost use Rattle.table.specs.Inner.Place.{use_of};
ghost use Rattle.formula_lines.specs.Inner.Kinds.{number, keyword};
ghost use Rattle.formula_lines.specs.Inner.Reader.{sort_number, kinds_starting, FormIn, PartsAre};

use psl::Kind;
use table::Place;

// What a form stands for.
#[derive(Clone, Copy, Debug, PartialEq, Eq)]
pub(crate) enum Sort {
    Boolean,
    Formula,
}

// A form that is spelled out as others (document 002, definition 8).
#[derive(Clone, Copy, Debug, PartialEq, Eq)]
pub(crate) enum Short {
    Or,
    Implies,
    Iff,
    WeakNext,
    Eventually,
    Always,
    WeakUntil,
    Before,
}

// What a bracket opens with: the word of a node's kind, or of a short form.
#[derive(Clone, Copy, Debug, PartialEq, Eq)]
pub(crate) enum Keyword {
    Node(Kind),
    Short(Short),
}

// The keywords of a sort that begin with a byte: few, so that a word is found soon.
#[tactic(auto, unfolding(crate::specs::Inner::Reader::kinds_starting, crate::specs::Inner::Kinds::keyword))]
pub(crate) fn starting(sort: Sort, first: u8) -> &'static [Keyword]
    ensures { map number result.now ≡ kinds_starting (sort_number sort) first }
{
    match sort {
        Sort::Boolean => match first {
            b'b' => &[Keyword::Node(Kind::Bnot), Keyword::Node(Kind::Band)],
            b'v' => &[Keyword::Node(Kind::Var)],
            _ => &[],
        },
        Sort::Formula => match first {
            b'a' => &[
                Keyword::Node(Kind::And),
                Keyword::Node(Kind::Abort),
                Keyword::Short(Short::Always),
            ],
            b'b' => &[Keyword::Short(Short::Before)],
            b'e' => &[Keyword::Short(Short::Eventually)],
            b'i' => &[Keyword::Short(Short::Implies), Keyword::Short(Short::Iff)],
            b'n' => &[Keyword::Node(Kind::Not), Keyword::Node(Kind::Next)],
            b'o' => &[Keyword::Short(Short::Or)],
            b's' => &[Keyword::Node(Kind::Strong)],
            b'u' => &[Keyword::Node(Kind::Until)],
            b'w' => &[
                Keyword::Node(Kind::Weak),
                Keyword::Short(Short::WeakNext),
                Keyword::Short(Short::WeakUntil),
            ],
            _ => &[],
        },
    }
}

// The bytes of a keyword, with the space after it. Not inlined it is a look-up; inlined, each turn of the loop over the keywords would be a jump.
#[tactic(auto, unfolding(crate::specs::Inner::Kinds::keyword))]
#[inline(never)]
pub(crate) fn word(k: Keyword) -> &'static [u8]
    ensures { result.now ≡ keyword (number k) }
{
    match k {
        Keyword::Node(Kind::True) => b"", // it stands without brackets
        Keyword::Node(Kind::Var) => b"var ",
        Keyword::Node(Kind::Bnot) => b"bnot ",
        Keyword::Node(Kind::Band) => b"band ",
        Keyword::Node(Kind::Weak) => b"weak ",
        Keyword::Node(Kind::Strong) => b"strong ",
        Keyword::Node(Kind::Not) => b"not ",
        Keyword::Node(Kind::And) => b"and ",
        Keyword::Node(Kind::Next) => b"next ",
        Keyword::Node(Kind::Until) => b"until ",
        Keyword::Node(Kind::Abort) => b"abort ",
        Keyword::Short(Short::Or) => b"or ",
        Keyword::Short(Short::Implies) => b"implies ",
        Keyword::Short(Short::Iff) => b"iff ",
        Keyword::Short(Short::WeakNext) => b"wnext ",
        Keyword::Short(Short::Eventually) => b"eventually ",
        Keyword::Short(Short::Always) => b"always ",
        Keyword::Short(Short::WeakUntil) => b"wuntil ",
        Keyword::Short(Short::Before) => b"before ",
    }
}

// What stands between a keyword and the closing bracket: a signal's number, or one or two forms of a sort each.
#[derive(Clone, Copy, Debug, PartialEq, Eq)]
pub(crate) enum Parts {
    Signal,
    One(Sort),
    Two(Sort, Sort),
}

// The sort of the form that stands in a place, if one does.
fn form_in(place: Place) -> Option<Sort>
    ensures { FormIn (use_of place) result }
{
    match place {
        Place::Boolean => Some(Sort::Boolean),
        Place::Formula => Some(Sort::Formula),
        Place::Unused | Place::Signal => None,
    }
}

// A short form has one formula or two; of a node the two places of its kind tell, where no form stands right if none stands left.
#[tactic(auto, unfolding(crate::specs::Inner::Kinds::shape))]
pub(crate) fn parts_of(keyword: Keyword) -> Parts
    ensures { PartsAre (number keyword) result }
{
    let kind = match keyword {
        Keyword::Node(kind) => kind,
        Keyword::Short(Short::WeakNext | Short::Eventually | Short::Always) => {
            return Parts::One(Sort::Formula);
        }
        Keyword::Short(_) => return Parts::Two(Sort::Formula, Sort::Formula),
    };
    let (left, right) = table::Kind::places(kind);
    match (form_in(left), form_in(right)) {
        (None, _) => Parts::Signal,
        (Some(sort), None) => Parts::One(sort),
        (Some(first), Some(second)) => Parts::Two(first, second),
    }
}
