// Line 1 of a run: its formula is read and translated.
#![tactic(auto)]

ghost use Rattle.std.specs.Prelude.{◌≡◌};
ghost use Rattle.std.proofs.Math.Option.{none};
ghost use Rattle.psl.specs.Check.{psl_refusal};
ghost use Rattle.ltl.specs.Check.{ltl_refusal};

use arrayvec::ArrayVec;
use ltl::LtlTable;
use psl::PslTable;
use std::marker::PhantomData;
use trace::Refusal;

// Room for the numbers of the largest tables, three a node, as the reader and the translator take them of C.
const PSL_ROOM: usize = 3 * psl::MOST_NODES;

const LTL_ROOM: usize = 3 * ltl::MOST_NODES;

// The tables of line 1. Both passed their check, so that no later line has to test them again. Two lists with a method each: a type for either kind would be longer than both.
#[derive(Drop)]
pub struct Tables {
    pub psl: ArrayVec<u16, PSL_ROOM>,
    pub ltl: ArrayVec<u16, LTL_ROOM>,
    pub ghost psl_accepted: { psl_refusal psl.items ≡ none },
    pub ghost ltl_accepted: { ltl_refusal ltl.items ≡ none },
}

impl Tables {
    ghost use Rattle.line_one.specs.Inner.{FirstAnswer};

    // The PSL table of a line's formula and its translation, or the line's refusal. Each list has room for the largest table: neither 23 nor 10 is due.
    pub fn of_line(line: &[u8]) -> Result<Tables, Refusal>
        ensures { FirstAnswer line.now result }
    {
        let mut psl = ArrayVec::from([0u16; PSL_ROOM]);
        let mut ltl = ArrayVec::from([0u16; LTL_ROOM]);
        let p = formula_lines::read_formula(line, &mut psl)?;
        psl.truncate(3 * p);
        let q = translate::translate(&psl, &mut ltl)?;
        ltl.truncate(3 * q);
        Ok(Tables { psl, ltl })
    }

    pub fn psl(&self) -> PslTable<'_>
        ensures { result.numbers.now ≡ self.now.psl.items }
    {
        PslTable {
            numbers: &self.psl,
            of: PhantomData,
        }
    }

    pub fn ltl(&self) -> LtlTable<'_>
        ensures { result.numbers.now ≡ self.now.ltl.items }
    {
        LtlTable {
            numbers: &self.ltl,
            of: PhantomData,
        }
    }
}
