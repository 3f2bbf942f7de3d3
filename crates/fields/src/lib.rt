// The fields of a line of text: document 01, "The session text". A line comes byte by byte and is never stored: what its
// fields hold so far is all that is kept. Every call takes any number in any field, and none is refused.
#![tactic(auto)]

ghost use Rattle.std.specs.Prelude.{◌≡◌};
ghost use Rattle.fields.specs.Parted;
ghost use Rattle.fields.specs.Reading;

// A field, read both ways: its number, where it is 1 to 9 digits, and its letter, where it is one byte. Its size is how
// many bytes it has, and 10 says ten or more.
// The size stays a count that stops at 10: `field_of` says so, and no value is missing.
#[derive(Clone, Copy, Default)]
pub struct Field {
    pub number: Option<u32>,
    pub letter: Option<u8>,
    pub size: u8,
}

// The fields of a line so far: the last one, and those before it, as many as `count` says. Five or more before the last
// are counted as 5, and only the first four of them are kept. An array with a count, and no `Vec`: memory is fixed, and
// the count goes beyond what is kept.
// It stays a count that stops at 5: `held` says so, and no value is missing.
#[derive(Clone, Copy)]
pub struct Fields {
    pub count: u8,
    pub before: [Field; 4],
    pub last: Field,
}

// One more, up to most.
fn counted(n: u8, most: u8) -> u8
    ensures { result ≡ Reading.counted n most }
{
    n.saturating_add(1).min(most)
}

impl Field {
    // The number before the field's next byte: an empty field has no digit yet.
    fn so_far(&self) -> Option<u32>
        ensures { result ≡ Reading.so_far self.now }
    {
        if self.size == 0 { Some(0) } else { self.number }
    }

    // The number with the digit b behind its digits so far.
    #[tactic(auto, unfolding(crate::specs::Reading::longer))]
    fn longer(&self, b: u8) -> Option<u32>
        ensures { result ≡ Reading.longer self.now b }
    {
        let n = self.so_far()?;
        (n < 100000000 && b.is_ascii_digit() && self.size < 9).then(|| n * 10 + u32::from(b - b'0'))
    }

    // The byte b where it is the field's only one.
    fn only(&self, b: u8) -> Option<u8>
        ensures { result ≡ Reading.only self.now b }
    {
        (self.size == 0).then_some(b)
    }

    // Takes one more byte.
    #[tactic(auto, unfolding(crate::specs::Reading::extended))]
    fn extend(&mut self, b: u8)
        ensures { self.new ≡ Reading.extended self.old b }
    {
        self.number = self.longer(b);
        self.letter = self.only(b);
        self.size = counted(self.size, 10);
    }
}

impl Fields {
    // No byte yet: one empty field.
    pub fn empty() -> Fields
        ensures { result ≡ Reading.empty }
    {
        Fields {
            count: 0,
            before: [Field::default(); 4],
            last: Field::default(),
        }
    }

    // The last field goes to its place among those before, where there is one.
    #[tactic(auto, unfolding(crate::specs::Reading::placed))]
    fn place(&mut self)
        ensures { self.new ≡ Reading.placed self.old }
    {
        let place = usize::from(self.count);
        if place < self.before.len() {
            self.before[place] = self.last;
        }
    }

    // A tab: the last field ends, and an empty one begins.
    #[tactic(auto, unfolding(crate::specs::Reading::placed, crate::specs::Reading::parted))]
    fn part(&mut self)
        ensures { self.new ≡ Reading.parted self.old }
    {
        self.place();
        self.count = counted(self.count, 5);
        self.last = Field::default();
    }

    // Takes the line's next byte. The newline is not part of a line.
    #[tactic(auto, unfolding(crate::specs::Reading::push))]
    pub fn push(&mut self, b: u8)
        ensures { self.new ≡ Reading.push self.old b }
    {
        if b == b'\t' {
            self.part();
        } else {
            self.last.extend(b);
        }
    }
}
