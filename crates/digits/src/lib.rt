// Bytes and numbers written into lent text, and a double's bits.
#![tactic(auto)]

ghost use Rattle.std.specs.Prelude.{◌≡◌, ◌≤◌, ◌<◌, length};
ghost use Rattle.std.specs.Float.{binary64};
ghost use Rattle.std.specs.Float.Ieee.{to_bits};
ghost use Rattle.digits.specs.Digits.{digit_of, digits_of, digits_in, decimal_of, hex_of, most_places, hex_places};
ghost use Rattle.digits.specs.Put.{HasRoom, SameMemory, Wrote, WroteWithin, WroteExactly};

// The bases of the two ways that a number is written.
const DECIMAL: u64 = 10;

const HEX: u64 = 16;

pub const HEX_PLACES: usize = 16;

// What stands for a NaN, which has no bits of its own.
const NAN_BITS: u64 = 0x7FF8_0000_0000_0000;

#[tactic(auto, unfolding(crate::specs::Digits::digit_of, basics::specs::Choice::pick))]
fn digit(d: u64) -> u8
    requires { d < 16 }
    ensures { result ≡ digit_of d }
{
    if d < DECIMAL {
        b'0' + d as u8
    } else {
        b'A' - 10 + d as u8
    }
}

// How many decimal digits n has.
#[tactic(auto, using(crate::proofs::Decimal::places_by))]
fn places(n: u64) -> usize
    ensures { result ≡ digits_in n }
{
    1 + n.checked_ilog10().unwrap_or(0) as usize
}

// Text in lent memory, which is written from its front: the next byte comes to place `at`.
#[derive(Drop)]
pub struct Text<'a> {
    pub out: &'a mut [u8],
    pub at: usize,
}

impl Text<'_> {
    #[tactic(auto, using(crate::proofs::Puts::copied))]
    pub fn put_bytes(&mut self, bytes: &[u8])
        requires { HasRoom self.old (length bytes.now) }
        ensures same_memory { SameMemory self.old self.new }
        ensures text { Wrote self.old bytes.now self.new }
    {
        let end = self.at + bytes.len();
        self.out[self.at..end].copy_from_slice(bytes);
        self.at = end;
    }

    // From the last digit to the first.
    fn put_digits(&mut self, base: u64, count: usize, n: u64)
        requires { (2 ≤ base) × (base ≤ 16) × HasRoom self.old count }
        ensures same_memory { SameMemory self.old self.new }
        ensures text { Wrote self.old (digits_of base count n) self.new }
    {
        let mut rest = n;
        for place in (0..count).rev() {
            self.out[self.at + place] = digit(rest % base);
            rest /= base;
        }
        self.at += count;
    }

    #[tactic(auto, using(crate::proofs::Puts::length_digits, crate::proofs::Decimal::places_most), unfolding(crate::specs::Digits::decimal_of))]
    pub fn put_decimal(&mut self, n: u64)
        requires { HasRoom self.old most_places }
        ensures same_memory { SameMemory self.old self.new }
        ensures text { WroteWithin self.old (decimal_of n) most_places self.new }
    {
        self.put_digits(DECIMAL, places(n), n);
    }

    #[tactic(auto, using(crate::proofs::Puts::length_digits), unfolding(crate::specs::Digits::hex_of))]
    pub fn put_hex(&mut self, bits: u64)
        requires { HasRoom self.old hex_places }
        ensures same_memory { SameMemory self.old self.new }
        ensures text { WroteExactly self.old (hex_of bits) hex_places self.new }
    {
        self.put_digits(HEX, HEX_PLACES, bits);
    }
}

// A double's bits.
pub fn bits_of(x: f64) -> u64
    ensures { result ≡ to_bits binary64 x }
{
    if x.is_nan() { NAN_BITS } else { x.to_bits() }
}
