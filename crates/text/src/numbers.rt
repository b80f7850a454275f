// Reading numbers of a line.
ghost use Rattle.std.specs.Prelude.{◌≡◌, ℕ, ◌+◌, ◌*◌};
ghost use Rattle.text.specs.Inner.Scan.{DigitRead, Counts, NumberRead, DecimalRead};

use crate::scan::{Cursor, Fault};

// A number so far and one digit more; none where it is above the limit. The limit tells before anything can wrap: checked_mul and checked_add take longer.
fn push(value: Option<u64>, digit: u64, limit: u64) -> Option<u64>
    ensures { (n : ℕ) → Counts limit n value → Counts limit (10 * n + digit) result }
{
    let value = value?;
    if limit < digit || (limit - digit) / 10 < value {
        return None;
    }
    Some(10 * value + digit)
}

impl<'a> Cursor<'a> {
    // Past a digit, where one stands.
    fn digit(&mut self) -> Option<u64>
        ensures line { self.new.line.now ≡ self.old.line.now }
        ensures read { DigitRead self.old.line.now self.old.at self.new.at result }
    {
        let b = *self.line.get(self.at)?;
        if !b.is_ascii_digit() {
            return None;
        }
        self.at += 1;
        Some(u64::from(b - b'0'))
    }

    // Past a decimal number without leading zeros: its value, or none above the limit. A fault leaves the place as it was.
    pub fn number(&mut self, limit: u64) -> Result<Option<u64>, Fault>
        ensures line { self.new.line.now ≡ self.old.line.now }
        ensures read { NumberRead self.old.line.now self.old.at limit self.new.at result }
    {
        let mut rest = *self;
        let first = rest.digit().ok_or(Fault(self.at))?;
        let mut value = push(Some(0), first, limit);
        while let Some(more) = rest.digit() {
            if first == 0 {
                return Err(Fault(self.at + 1));
            }
            value = push(value, more, limit);
        }
        *self = rest;
        Ok(value)
    }
}

// The number that a whole line is, in decimal without leading zeros; none where it is none, or one of more than 64 bits.
pub fn decimal(line: &[u8]) -> Option<u64>
    ensures { DecimalRead line.now result }
{
    let mut cursor = Cursor { line, at: 0 };
    let Ok(value) = cursor.number(u64::MAX) else {
        return None;
    };
    match cursor.end() {
        Ok(()) => value,
        Err(_) => None,
    }
}
