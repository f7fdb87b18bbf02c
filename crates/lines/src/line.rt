// A line of a list, taken in byte by byte.
ghost use Rattle.std.specs.Prelude.{◌≡◌, ◌≢◌, ◌+◌, ◌-◌, ◌*◌, ◌<◌, ◌≤◌, ◌⊎◌};
ghost use Rattle.std.specs.Prelude.{ℕ, min, List, [], ◌∷◌, ◌++◌, take, length, true, IsTrue, IsSome};
ghost use Rattle.lines.specs.Arrays.{padded};
ghost use Rattle.lines.specs.Lines.{Begun, Read, before_a_line};

use crate::kind::Kind;
use std::marker::Model;

// The most numbers that a line has.
pub const MOST_NUMBERS: usize = 8;

// What there is of a line so far: its letter, where it has begun, its numbers, and whether it is not as it should be.
// The numbers are an array with their count, as memory is fixed: behind them it has zeros, so that two lines with the same
// numbers are the same.
#[derive(Clone, Copy)]
pub struct Line {
    letter: Option<u8>,
    numbers: [u64; MOST_NUMBERS],
    count: usize,
    spoilt: bool,
}

impl Model for Line {
    ghost use Rattle.std.specs.Prelude.{take, length};
    ghost use Rattle.lines.specs.Lines.{Begun};
    ghost use Rattle.lines.specs.Arrays.{Listed, padded, length_listed, padded_listed};

    ghost Value = { Begun };

    ghost view = { λ line. record { letter = line.letter; numbers = take line.count line.numbers; spoilt = line.spoilt } };

    ghost invariant = { λ line. Listed 8 line.count line.numbers };

    ghost inverse = { λ line. record {
      letter = line.letter;
      numbers = padded 8 line.numbers;
      count = length line.numbers;
      spoilt = line.spoilt;
    } };

    ghost inverse_ok = { λ line listed i. record {
      letter = line.letter;
      numbers = padded_listed 8 line.count line.numbers listed i;
      count = length_listed 8 line.count line.numbers listed i;
      spoilt = line.spoilt;
    } };
}

// A number with one more digit behind it. One that is too large becomes the largest.
fn appended(n: u64, digit: u64) -> u64
    requires { digit < 10 }
    ensures { result ≡ min (10 * n + digit) u64.MAX }
{
    n.saturating_mul(10).saturating_add(digit)
}

impl Line {
    // A line of which nothing has come.
    pub fn new() -> Line
        ensures { result ≡ before_a_line }
    {
        Line {
            letter: None,
            numbers: [0; MOST_NUMBERS],
            count: 0,
            spoilt: false,
        }
    }

    // Begins anew: nothing has come of the line.
    pub fn clear(&mut self)
        ensures { self.new ≡ before_a_line }
    {
        self.letter = None;
        self.numbers = [0; MOST_NUMBERS];
        self.count = 0;
        self.spoilt = false;
    }

    // Takes in a byte of the line: its letter first, then a space before each number and digits. A byte 0 is no letter.
    pub fn take(&mut self, byte: u8)
        ensures letter { self.old.letter ≡ None → byte ≢ 0 → self.new ≡ record self.old { letter = Some byte } }
        ensures none { self.old.letter ≡ None → byte ≡ 0 → self.new ≡ self.old }
        ensures space { IsSome self.old.letter → byte ≡ 32 → length self.old.numbers < 8
            → self.new ≡ record self.old { numbers = self.old.numbers ++ 0 ∷ [] } }
        ensures full { IsSome self.old.letter → byte ≡ 32 → 8 ≤ length self.old.numbers
            → self.new ≡ record self.old { spoilt = true } }
        ensures digit { (front : List ℕ) (last : ℕ) → self.old.numbers ≡ front ++ last ∷ [] → IsSome self.old.letter
            → 48 ≤ byte → byte ≤ 57
            → self.new ≡ record self.old { numbers = front ++ min (10 * last + (byte - 48)) u64.MAX ∷ [] } }
        ensures early { IsSome self.old.letter → 48 ≤ byte → byte ≤ 57 → self.old.numbers ≡ []
            → self.new ≡ record self.old { spoilt = true } }
        ensures other { IsSome self.old.letter → byte ≢ 32 → (byte < 48) ⊎ (57 < byte)
            → self.new ≡ record self.old { spoilt = true } }
        ensures spoilt { IsTrue self.old.spoilt → IsTrue self.new.spoilt }
    {
        if self.letter.is_none() {
            self.letter = Some(byte).filter(|letter| *letter != 0);
        } else if byte == b' ' {
            self.take_space();
        } else {
            self.take_digit(byte);
        }
    }

    // Begins a number: the word behind the others is 0.
    fn take_space(&mut self)
        ensures begun { length self.old.numbers < 8 → self.new ≡ record self.old { numbers = self.old.numbers ++ 0 ∷ [] } }
        ensures full { 8 ≤ length self.old.numbers → self.new ≡ record self.old { spoilt = true } }
    {
        if self.count < MOST_NUMBERS {
            self.count += 1;
        } else {
            self.spoilt = true;
        }
    }

    // Takes in a digit of the latest number.
    fn take_digit(&mut self, byte: u8)
        ensures digit { (front : List ℕ) (last : ℕ) → self.old.numbers ≡ front ++ last ∷ [] → 48 ≤ byte → byte ≤ 57
            → self.new ≡ record self.old { numbers = front ++ min (10 * last + (byte - 48)) u64.MAX ∷ [] } }
        ensures early { self.old.numbers ≡ [] → self.new ≡ record self.old { spoilt = true } }
        ensures other { (byte < 48) ⊎ (57 < byte) → self.new ≡ record self.old { spoilt = true } }
        ensures spoilt { IsTrue self.old.spoilt → IsTrue self.new.spoilt }
    {
        if self.count > 0 && byte.is_ascii_digit() {
            let latest = self.count - 1;
            self.numbers[latest] = appended(self.numbers[latest], u64::from(byte - b'0'));
        } else {
            self.spoilt = true;
        }
    }

    // The line's kind, if its letter is that of one and it has as many numbers as that kind should.
    pub fn kind(&self) -> Option<Kind>
        ensures { Read self.now result }
    {
        if self.spoilt {
            return None;
        }
        let kind = Kind::from_letter(self.letter?)?;
        if kind.numbers() == self.count {
            Some(kind)
        } else {
            None
        }
    }

    // The line's numbers, of which as many count as its kind has. Behind them are zeros.
    pub fn numbers(&self) -> [u64; MOST_NUMBERS]
        ensures first { take (length self.now.numbers) result ≡ self.now.numbers }
        ensures padded { result ≡ padded 8 self.now.numbers }
    {
        let Line { numbers, .. } = self;
        *numbers
    }
}
