// What is counted from line to line.
ghost use Rattle.std.specs.Prelude.{◌≡◌, ◌≤◌, length, slice_index};
ghost use Rattle.lines.specs.Counting.{place_of, nothing, one_difference, with_line, with_compared, differing_words};

use crate::kind::Kind;

// How many lines of each kind there were, how many others, how many numbers were compared, and how many of them differ.
#[derive(Clone, Copy)]
pub struct Counts {
    lines: [u64; Kind::COUNT],
    pub others: u64,
    pub compared: u64,
    pub differences: u64,
}

// At how many places the words of two lists differ.
fn differing(told: &[u64], recorded: &[u64]) -> usize
    ensures { result ≡ differing_words told.now recorded.now }
{
    told.iter()
        .zip(recorded)
        .filter(|(told, recorded)| told != recorded)
        .count()
}

impl Counts {
    // Nothing is counted yet.
    pub fn new() -> Counts
        ensures { result ≡ nothing }
    {
        Counts {
            lines: [0; Kind::COUNT],
            others: 0,
            compared: 0,
            differences: 0,
        }
    }

    // How many lines of a kind there were.
    pub fn of(&self, kind: Kind) -> u64
        ensures { result ≡ slice_index self.now.lines (place_of kind) }
    {
        self.lines[kind as usize]
    }

    // Counts a line, by its kind if it has one.
    pub fn count(&mut self, kind: Option<Kind>)
        ensures { self.new ≡ with_line kind self.old }
    {
        match kind {
            Some(kind) => {
                let i = kind as usize;
                self.lines[i] = self.lines[i].saturating_add(1);
            }
            None => self.others = self.others.saturating_add(1),
        }
    }

    // Counts a difference.
    pub fn differ(&mut self)
        ensures { self.new ≡ one_difference self.old }
    {
        self.differences = self.differences.saturating_add(1);
    }

    // Compares words that were told with those that are recorded.
    pub fn compare(&mut self, told: &[u64], recorded: &[u64])
        requires { length told.now ≤ length recorded.now }
        ensures { self.new ≡ with_compared (length told.now) (differing_words told.now recorded.now) self.old }
    {
        let differing = differing(told, recorded);
        self.compared = self.compared.saturating_add(told.len() as u64);
        self.differences = self.differences.saturating_add(differing as u64);
    }
}
