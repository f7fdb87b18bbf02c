// Requests to a sound pool: the edits of the tree with the slots that they take and free. That the pool is sound is one fact
// of each contract, and not a type: a struct that held the lent words would have to promise there that it keeps its reference.
#![tactic(auto)]

ghost use Rattle.std.specs.Prelude.{◌≡◌, length};
ghost use Rattle.rules.specs.Pool.{Pool, Holds, capacity, fresh};
ghost use Rattle.rules.specs.Edit.{find};
ghost use Rattle.rules.specs.Request.{serve, changed, insert_into, delete_from, delete_end_from};
ghost use Rattle.interval.specs.Interval.{range_of};
ghost use Rattle.balance.specs.Sides.{side_of};
ghost use Rattle.request.specs.Requests.{request_of};
ghost use Rattle.request.specs.Answers.{outcome_number, number_of};
ghost use Rattle.serve.specs.Answers.{Answers};

use balance::Side;
use interval::Interval;
use node::LINKS;
use request::{Outcome, Refusal, Request};
use rules::HEADER_WORDS;

// Puts the range with its value into the pool.
fn insert(words: &mut [u64], key: Interval, value: u64) -> Result<Outcome, Refusal>
    requires { (p : Pool) × Holds words.old p }
    ensures { (p : Pool) → Holds words.old p → Answers words.old words.new (number_of result) (insert_into (find (range_of key) p.tree) p.free (range_of key) value p) }
{
    let root = words[0];
    let free = words[1];
    if free == 0 {
        if tree::contains(pool::slots(words), root, key) {
            return Ok(Outcome::There);
        }
        return Err(Refusal::Full);
    }
    let next = node::word(pool::slots(words), free, LINKS);
    match tree::insert(&mut words[HEADER_WORDS..], root, key, value, free) {
        None => Ok(Outcome::There),
        Some(top) => {
            pool::claim(words, top.root(), next);
            Ok(Outcome::Done)
        }
    }
}

// Takes the range out of the pool.
fn delete(words: &mut [u64], key: Interval) -> Outcome
    requires { (p : Pool) × Holds words.old p }
    ensures { (p : Pool) → Holds words.old p → Answers words.old words.new (outcome_number result) (delete_from (find (range_of key) p.tree) (range_of key) p) }
{
    let root = words[0];
    let gone = tree::delete(&mut words[HEADER_WORDS..], root, key);
    let slot = gone.slot;
    if slot == 0 {
        return Outcome::Absent;
    }
    pool::release(words, gone.top.root(), slot);
    Outcome::Done
}

// Takes the outermost entry on the side out of the pool.
fn delete_end(words: &mut [u64], side: Side) -> Outcome
    requires { (p : Pool) × Holds words.old p }
    ensures { (p : Pool) → Holds words.old p → Answers words.old words.new (outcome_number result) (delete_end_from (side_of side) p.tree p) }
{
    let root = words[0];
    if root == 0 {
        return Outcome::Absent;
    }
    let gone = tree::delete_end(&mut words[HEADER_WORDS..], side, root);
    pool::release(words, gone.top.root(), gone.slot);
    Outcome::Done
}

// Takes all ranges out of the pool.
fn clear(words: &mut [u64]) -> Outcome
    requires { (p : Pool) × Holds words.old p }
    ensures { (p : Pool) → Holds words.old p → Answers words.old words.new (outcome_number result) (changed (fresh (capacity (length words.old)))) }
{
    pool::format(words);
    Outcome::Done
}

// Serves a request without its rows: what a query overlaps is not looked for.
pub fn edit(words: &mut [u64], request: Request) -> Result<Outcome, Refusal>
    requires { (p : Pool) × Holds words.old p }
    ensures { (p : Pool) → Holds words.old p → Answers words.old words.new (number_of result) (serve (capacity (length words.old)) (request_of request) p) }
{
    match request {
        Request::Insert { stretch, value } => insert(words, stretch.range()?, value),
        Request::Delete(stretch) => Ok(delete(words, stretch.range()?)),
        Request::DeleteMin => Ok(delete_end(words, Side::Left)),
        Request::DeleteMax => Ok(delete_end(words, Side::Right)),
        Request::Clear => Ok(clear(words)),
        Request::Query(stretch) => {
            stretch.range()?;
            Ok(Outcome::Done)
        }
    }
}
