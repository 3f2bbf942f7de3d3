// What the programs draw their cases from, and the sum over what is answered, both as the independent model of tests/model has them.
#![tactic(auto)]

ghost use Rattle.std.specs.Prelude.{◌≡◌, ◌<◌, ◌≤◌, ◌%◌};
ghost use Rattle.draws.specs.Drawing.{next_of, below_of, mixed};

// A row of numbers: the last that was drawn, from which the next one follows.
#[derive(Clone, Copy, Debug, PartialEq, Eq)]
pub struct Draws {
    pub last: u32,
}

impl Draws {
    #[inline]
    pub fn next(&mut self) -> u32
        ensures answer { result ≡ next_of self.old.last }
        ensures row { self.new.last ≡ next_of self.old.last }
    {
        self.last = self.last.wrapping_mul(1664525).wrapping_add(1013904223);
        self.last
    }

    // A number below n, or 0 where n is 0.
    #[inline]
    pub fn below(&mut self, n: u32) -> u32
        ensures answer { result ≡ below_of (next_of self.old.last) n }
        ensures bound { 0 < n → result < n }
        ensures row { self.new.last ≡ next_of self.old.last }
    {
        let drawn = self.next();
        if n == 0 { 0 } else { drawn / 65536 % n }
    }

    // The lowest byte of a number below n, which up to 256 is that number.
    #[inline]
    pub fn byte(&mut self, n: u32) -> u8
        ensures answer { result ≡ below_of (next_of self.old.last) n % 256 }
        ensures bound { (0 < n) × (n ≤ 256) → result < n }
        ensures row { self.new.last ≡ next_of self.old.last }
    {
        (self.below(n) % 256) as u8
    }
}

// A sum over answers, which begins at 0.
#[derive(Clone, Copy, Debug, Default, PartialEq, Eq)]
pub struct Sum {
    pub value: u32,
}

impl Sum {
    #[inline]
    pub fn mix(&mut self, x: u32)
        ensures { self.new.value ≡ mixed self.old.value x }
    {
        self.value = self.value.wrapping_mul(31).wrapping_add(x);
    }
}
