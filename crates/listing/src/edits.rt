// The lines that edit a pool: what the entry answers is compared, and the size and the height after it.
ghost use Rattle.std.specs.Prelude.{◌≡◌};
ghost use Rattle.rules.specs.Entries.{height_of};
ghost use Rattle.lines.specs.Counting.{with_compared, differing_words};
ghost use Rattle.listing.specs.Editing.{made, levels_of, told_of, recorded};

use lines::counts::Counts;
use lines::kind::Kind;
use lines::line::MOST_NUMBERS;

// What is recorded of an edit: its answer, and the tree's size and levels after it.
fn recorded(kind: Kind, numbers: [u64; MOST_NUMBERS]) -> [u64; 3]
    ensures { result ≡ recorded kind numbers }
{
    let [first, second, third, fourth, fifth, sixth, ..] = numbers;
    match kind {
        Kind::Insert | Kind::InsertIncluded => [fourth, fifth, sixth],
        Kind::Delete | Kind::DeleteIncluded => [third, fourth, fifth],
        Kind::DeleteMin | Kind::DeleteMax => [first, second, third],
        Kind::Clear => [0, first, second],
        _ => [0, 0, 0],
    }
}

// Makes an edit, and answers its number.
fn make(pool: &mut [u64], kind: Kind, numbers: [u64; MOST_NUMBERS]) -> u64
    ensures { record { number = result; words = pool.new } ≡ made kind numbers pool.old }
{
    let [start, end, value, ..] = numbers;
    let included = u8::from(kind.is_included());
    match kind {
        Kind::Insert | Kind::InsertIncluded => {
            hindraloha::hindraloha_insert(pool, start, end, included, value).number
        }
        Kind::Delete | Kind::DeleteIncluded => {
            hindraloha::hindraloha_delete(pool, start, end, included).number
        }
        Kind::DeleteMin => hindraloha::hindraloha_delete_min(pool).number,
        Kind::DeleteMax => hindraloha::hindraloha_delete_max(pool).number,
        Kind::Clear => hindraloha::hindraloha_clear(pool).number,
        _ => hindraloha::hindraloha_format(pool).number,
    }
}

// The levels of the tree: one more than its height.
fn levels(pool: &[u64]) -> u64
    ensures { result ≡ levels_of (height_of pool.now).told }
{
    let told = hindraloha::hindraloha_height(pool);
    u64::try_from(told.height).map_or(0, |height| height + 1)
}

// Makes the edit of a line, and compares what it comes to.
pub fn edit(pool: &mut [u64], kind: Kind, numbers: [u64; MOST_NUMBERS], counts: &mut Counts)
    ensures pool { pool.new ≡ (made kind numbers pool.old).words }
    ensures counts { counts.new ≡ with_compared 3
        (differing_words (told_of (made kind numbers pool.old)) (recorded kind numbers)) counts.old }
{
    let due = recorded(kind, numbers);
    let number = make(pool, kind, numbers);
    let size = hindraloha::hindraloha_size(pool);
    counts.compare(&[number, size.count, levels(pool)], &due);
}
