// What a success gives, as one number: so that all answers are coded by one function.
ghost use Rattle.std.specs.Prelude.{◌≡◌, ℕ};
ghost use Rattle.brancadol.specs.Value.{nothing, verdict, lengths};

use trace_lines::Lengths;

pub trait Value {
    ghost value: { Self → ℕ };

    fn value(self) -> u64
        ensures { result ≡ value self };
}

impl Value for () {
    ghost value = { nothing };

    fn value(self) -> u64 {
        0
    }
}

impl Value for bool {
    ghost value = { verdict };

    fn value(self) -> u64 {
        u64::from(self)
    }
}

impl Value for usize {
    ghost value = { λ n. n };

    fn value(self) -> u64 {
        self as u64
    }
}

impl Value for Lengths {
    ghost value = { lengths };

    fn value(self) -> u64 {
        (self.lead as u64) % 65536 + 65536 * ((self.cycle as u64) % 65536)
    }
}
