// The lines of a whole tree: its nodes in the pool's words, each before its left subtree, and that before the right one.
ghost use Rattle.std.specs.Prelude.{◌≡◌, ◌+◌, ◌/◌, ◌%◌, ◌++◌, [], ◌∷◌, List, ℕ, slice_get, slice_index, slice_range, Some, None};
ghost use Rattle.rules.specs.Limits.{slot_words, half};
ghost use Rattle.lines.specs.Counting.{one_difference};
ghost use Rattle.lines.specs.Noted.{with_node};
ghost use Rattle.listing.specs.Shapes.{Has, Found, place, present, after_node, after_size};

use lines::line::MOST_NUMBERS;
use lines::notes::Notes;
use lines::pending::Pending;
use rules::{HEADER_WORDS, MOST_SLOTS, SLOT_WORDS};

// Compares the size, and begins at the root.
pub fn tree(pool: &[u64], due: u64, notes: &mut Notes)
    ensures none { slice_get pool.now 0 ≡ None → notes.new ≡ after_size pool.now due notes.old }
    ensures root { (slot : ℕ) → slice_get pool.now 0 ≡ Some slot
        → notes.new ≡ with_node slot (after_size pool.now due notes.old) }
{
    let told = hindraloha::hindraloha_size(pool);
    notes.counts.compare(&[told.count], &[due]);
    if let Some(root) = pool.first() {
        notes.push(*root);
    }
}

// The words of a slot in the pool, if there is such a slot.
fn slot_words(pool: &[u64], slot: u64) -> Option<[u64; SLOT_WORDS]>
    ensures { Found pool.now slot result }
{
    if slot == 0 || slot > MOST_SLOTS as u64 {
        return None;
    }
    let at = HEADER_WORDS + SLOT_WORDS * (slot - 1) as usize;
    let words = pool.get(at..at + SLOT_WORDS)?;
    <[u64; SLOT_WORDS]>::try_from(words).ok()
}

// The two halves of a word: the low one first.
fn halves(word: u64) -> (u64, u64)
    ensures low { result.0 ≡ word % half }
    ensures high { result.1 ≡ word / half }
{
    (word & 65535, word >> 16)
}

// Whether there is a child in this slot, as it is recorded.
fn present(slot: u64) -> u64
    ensures { result ≡ present slot }
{
    u64::from(slot != 0)
}

// Compares the node that has these words, and leaves its children pending.
fn compare(words: [u64; SLOT_WORDS], numbers: [u64; MOST_NUMBERS], notes: &mut Notes)
    ensures { notes.new ≡ after_node words numbers notes.old }
{
    let [start, end, value, max, links, shape] = words;
    let (left, right) = halves(links);
    let (height, size) = halves(shape);
    let told = [
        start,
        end,
        value,
        max,
        height,
        size,
        present(left),
        present(right),
    ];
    notes.counts.compare(&told, &numbers);
    notes.push(right);
    notes.push(left);
}

// The words of the next node, which is no longer pending.
fn next(pool: &[u64], pending: &mut Pending) -> Option<[u64; SLOT_WORDS]>
    ensures none { pending.old ≡ [] → (result ≡ None) × (pending.new ≡ []) }
    ensures latest { (front : List ℕ) (slot : ℕ) → pending.old ≡ front ++ slot ∷ []
        → (pending.new ≡ front) × Found pool.now slot result }
{
    let slot = pending.pop()?;
    slot_words(pool, slot)
}

// Compares the next node. One that isn't there is a difference.
pub fn node(pool: &[u64], numbers: [u64; MOST_NUMBERS], notes: &mut Notes)
    ensures none { notes.old.pending ≡ [] → notes.new ≡ record notes.old { counts = one_difference notes.old.counts } }
    ensures node { (front : List ℕ) (slot : ℕ) → notes.old.pending ≡ front ++ slot ∷ [] → Has pool.now slot
        → notes.new ≡ after_node (slice_range pool.now (place slot) (place slot + slot_words)) numbers
        (record notes.old { pending = front }) }
    ensures lost { (front : List ℕ) (slot : ℕ) → notes.old.pending ≡ front ++ slot ∷ [] → (Has pool.now slot → ⊥)
        → notes.new ≡ record notes.old { counts = one_difference notes.old.counts; pending = front } }
{
    match next(pool, &mut notes.pending) {
        Some(words) => compare(words, numbers, notes),
        None => notes.counts.differ(),
    }
}
