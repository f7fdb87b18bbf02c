// Reading one survey record from any bytes: a byte of kind, then a body whose length the kind fixes.
#![tactic(auto)]

ghost use Rattle.std.specs.Prelude.{◌≡◌, ◌+◌, ◌≤◌, ◌<◌, length};
ghost use Rattle.std.proofs.Math.Option.{some};
ghost use Rattle.rules.specs.Record.{metre, u32_at, u64_at, insert_by, insert_exact};
ghost use Rattle.rules.specs.Record.{kinds, feed_kinds, reads_kind, reads};
ghost use Rattle.request.specs.Requests.{end_of, request_of};
ghost use Rattle.reading.specs.Reading.{row_of, row, feed_row, fixed_length, said, kind_number, Finds, reading_of};

use request::{End, Refusal, Request, Stretch};

// A metre and a link in micrometres.
const METRE: u64 = 1_000_000;

const LINK: u64 = 201_168;

// The kinds of the table: an insert names its unit, or whether its end is included.
#[derive(Clone, Copy, PartialEq, Eq)]
pub enum Kind {
    InsertMetres,
    InsertLinks,
    InsertExcluded,
    InsertIncluded,
    Delete,
    DeleteMin,
    DeleteMax,
    Clear,
    Query,
}

// A record that was read: what it asks, and how many bytes it takes.
#[derive(Clone, Copy)]
pub struct Record {
    pub request: Request,
    pub taken: usize,
}

// The number in the four bytes from `at` on, the first the lowest. Here as below each function says how many bytes it reads,
// since that is another number in each.
fn u32_at(body: &[u8], at: usize) -> u64
    requires { at + 4 ≤ length body.now }
    ensures { (result ≡ u32_at at body.now) × (result < 4294967296) }
{
    u64::from(u32::from_le_bytes(body[at..at + 4].try_into().unwrap()))
}

// The number in the eight bytes from `at` on, the first the lowest.
fn u64_at(body: &[u8], at: usize) -> u64
    requires { at + 8 ≤ length body.now }
    ensures { result ≡ u64_at at body.now }
{
    u64::from_le_bytes(body[at..at + 8].try_into().unwrap())
}

// An insert in units of `factor` micrometres: start and end are both multiplied.
fn insert_by(factor: u64, body: &[u8]) -> Request
    requires { (factor ≤ metre) × (16 ≤ length body.now) }
    ensures { request_of result ≡ (insert_by factor).means body.now }
{
    let start = factor * u32_at(body, 0);
    let end = factor * u32_at(body, 4);
    let value = u64_at(body, 8);
    Request::Insert {
        stretch: Stretch {
            bound: End::Excluded,
            start,
            end,
        },
        value,
    }
}

// The range in micrometres that a body begins with.
fn stretch(bound: End, body: &[u8]) -> Stretch
    requires { 16 ≤ length body.now }
    ensures { (result.bound ≡ bound) × (result.start ≡ u64_at 0 body.now) × (result.end ≡ u64_at 8 body.now) }
{
    Stretch {
        bound,
        start: u64_at(body, 0),
        end: u64_at(body, 8),
    }
}

// An insert in micrometres.
fn insert_exact(bound: End, body: &[u8]) -> Request
    requires { 24 ≤ length body.now }
    ensures { request_of result ≡ (insert_exact (end_of bound)).means body.now }
{
    Request::Insert {
        stretch: stretch(bound, body),
        value: u64_at(body, 16),
    }
}

impl TryFrom<u8> for Kind {
    type Error = Refusal;

    ghost try_from_gives = { λ byte found. Finds (row byte) byte found };

    // The kind that a record begins with.
    fn try_from(byte: u8) -> Result<Kind, Refusal> {
        match byte {
            1 => Ok(Kind::InsertMetres),
            2 => Ok(Kind::InsertLinks),
            3 => Ok(Kind::InsertExcluded),
            4 => Ok(Kind::InsertIncluded),
            5 => Ok(Kind::Delete),
            6 => Ok(Kind::DeleteMin),
            7 => Ok(Kind::DeleteMax),
            8 => Ok(Kind::Clear),
            9 => Ok(Kind::Query),
            _ => Err(Refusal::UnknownKind),
        }
    }
}

impl Kind {
    // The kind that a record of a feed begins with: a query is unknown there.
    pub fn in_feed(byte: u8) -> Result<Kind, Refusal>
        ensures { Finds (feed_row byte) byte result }
    {
        match Kind::try_from(byte)? {
            Kind::Query => Err(Refusal::UnknownKind),
            kind => Ok(kind),
        }
    }

    // How long the body is.
    pub fn body_length(self) -> usize
        ensures own { result ≡ (row_of self).body_length }
        ensures by_number { fixed_length (row (kind_number self)) ≡ some result }
    {
        match self {
            Kind::InsertMetres | Kind::InsertLinks => 16,
            Kind::InsertExcluded | Kind::InsertIncluded => 24,
            Kind::Delete | Kind::Query => 16,
            Kind::DeleteMin | Kind::DeleteMax | Kind::Clear => 0,
        }
    }

    // What a whole body asks.
    pub fn means(self, body: &[u8]) -> Request
        requires { (row_of self).body_length ≤ length body.now }
        ensures own { request_of result ≡ (row_of self).means body.now }
        ensures by_number { said (row (kind_number self)) body.now ≡ some (request_of result) }
    {
        match self {
            Kind::InsertMetres => insert_by(METRE, body),
            Kind::InsertLinks => insert_by(LINK, body),
            Kind::InsertExcluded => insert_exact(End::Excluded, body),
            Kind::InsertIncluded => insert_exact(End::Included, body),
            Kind::Delete => Request::Delete(stretch(End::Excluded, body)),
            Kind::DeleteMin => Request::DeleteMin,
            Kind::DeleteMax => Request::DeleteMax,
            Kind::Clear => Request::Clear,
            Kind::Query => Request::Query(stretch(End::Excluded, body)),
        }
    }

    // Reads the body that follows the byte of kind.
    fn read(self, body: &[u8]) -> Result<Record, Refusal>
        ensures { reading_of result ≡ some (reads_kind (some (row_of self)) body.now) }
    {
        let length = self.body_length();
        if body.len() < length {
            return Err(Refusal::CutShort);
        }
        Ok(Record {
            request: self.means(body),
            taken: 1 + length,
        })
    }
}

// Reads one record, of kinds 1 to 9.
pub fn read(bytes: &[u8]) -> Result<Record, Refusal>
    ensures { reading_of result ≡ some (reads kinds bytes.now) }
{
    match bytes.split_first() {
        Some((byte, body)) => Kind::try_from(*byte)?.read(body),
        None => Err(Refusal::CutShort),
    }
}

// Reads one record of a feed, where a query is a record of an unknown kind. (A trait for the two tables would be longer than
// this match.)
pub fn read_in_feed(bytes: &[u8]) -> Result<Record, Refusal>
    ensures { reading_of result ≡ some (reads feed_kinds bytes.now) }
{
    match bytes.split_first() {
        Some((byte, body)) => Kind::in_feed(*byte)?.read(body),
        None => Err(Refusal::CutShort),
    }
}
