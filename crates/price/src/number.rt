// One number of an open price.
ghost use Rattle.std.specs.Prelude.{◌≡◌, ◌+◌, ◌^◌, ◌<◌};
ghost use Rattle.std.specs.Option.{SomeIff, option_map};

// A whole number below the ceiling, 2^40. No value of this type reaches it, whatever memory it lies in.
#[derive(Clone, Copy, PartialEq, Eq, PartialOrd, Ord, Debug)]
pub struct Number {
    value: u64,
    ghost below: { value < 2 ^ 40 },
}

impl Number {
    pub const CEILING: u64 = 1 << 40;

    pub const ZERO: Number = Number { value: 0 };

    // The number, or none where it reaches the ceiling.
    pub fn new(value: u64) -> Option<Number>
        ensures { SomeIff (option_map (λ n. n.value) result) (value < 2 ^ 40) value }
    {
        if value < Number::CEILING {
            Some(Number { value })
        } else {
            None
        }
    }

    pub fn get(self) -> u64
        ensures { result ≡ self.value }
    {
        self.value
    }

    // The sum, or none where it reaches the ceiling.
    pub fn plus(self, other: Number) -> Option<Number>
        ensures { SomeIff (option_map (λ n. n.value) result) (self.value + other.value < 2 ^ 40) (self.value + other.value) }
    {
        Number::new(self.value + other.value)
    }
}

// A 32-bit number is always below the ceiling.
impl From<u32> for Number {
    ghost from_gives = { λ n r. r.value ≡ n };

    fn from(value: u32) -> Number {
        Number {
            value: u64::from(value),
        }
    }
}
