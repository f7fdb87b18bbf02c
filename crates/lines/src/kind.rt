// The kinds of the lines of a list, in the order in which they are reported.
ghost use Rattle.std.specs.Prelude.{◌≡◌, ◌↔◌, ◌⊎◌, IsTrue};
ghost use Rattle.lines.specs.Format.{Names, numbers_of};

use std::fmt;

// What a line of the list records. A range's end is excluded where the name doesn't say that it is included.
#[derive(Clone, Copy, Debug, PartialEq, Eq)]
pub enum Kind {
    Pool,
    Insert,
    InsertIncluded,
    Delete,
    DeleteIncluded,
    DeleteMin,
    DeleteMax,
    Clear,
    Query,
    QueryIncluded,
    Row,
    Tree,
    Node,
    End,
}

impl Kind {
    // How many kinds there are.
    pub const COUNT: usize = 14;

    // Each kind, in order.
    pub const ALL: [Kind; Kind::COUNT] = [
        Kind::Pool,
        Kind::Insert,
        Kind::InsertIncluded,
        Kind::Delete,
        Kind::DeleteIncluded,
        Kind::DeleteMin,
        Kind::DeleteMax,
        Kind::Clear,
        Kind::Query,
        Kind::QueryIncluded,
        Kind::Row,
        Kind::Tree,
        Kind::Node,
        Kind::End,
    ];

    // The kind of lines that begin with a letter.
    pub fn from_letter(letter: u8) -> Option<Kind>
        ensures { Names letter result }
    {
        match letter {
            b'f' => Some(Kind::Pool),
            b'i' => Some(Kind::Insert),
            b'j' => Some(Kind::InsertIncluded),
            b'd' => Some(Kind::Delete),
            b'e' => Some(Kind::DeleteIncluded),
            b'm' => Some(Kind::DeleteMin),
            b'x' => Some(Kind::DeleteMax),
            b'c' => Some(Kind::Clear),
            b'q' => Some(Kind::Query),
            b'p' => Some(Kind::QueryIncluded),
            b'r' => Some(Kind::Row),
            b's' => Some(Kind::Tree),
            b'n' => Some(Kind::Node),
            b'z' => Some(Kind::End),
            _ => None,
        }
    }

    // How many numbers a line of this kind has.
    pub fn numbers(self) -> usize
        ensures { result ≡ numbers_of self }
    {
        match self {
            Kind::End => 0,
            Kind::Pool | Kind::Tree => 1,
            Kind::Clear => 2,
            Kind::DeleteMin | Kind::DeleteMax | Kind::Query | Kind::QueryIncluded | Kind::Row => 3,
            Kind::Delete | Kind::DeleteIncluded => 5,
            Kind::Insert | Kind::InsertIncluded => 6,
            Kind::Node => 8,
        }
    }

    // Whether the end of a line's range is included.
    pub fn is_included(self) -> bool
        ensures { IsTrue result ↔ ((self ≡ Kind.InsertIncluded) ⊎ (self ≡ Kind.DeleteIncluded) ⊎ (self ≡ Kind.QueryIncluded)) }
    {
        matches!(
            self,
            Kind::InsertIncluded | Kind::DeleteIncluded | Kind::QueryIncluded
        )
    }
}

impl fmt::Display for Kind {
    fn fmt<W: fmt::Write>(&self, f: &mut fmt::Formatter<W>) -> fmt::Result {
        f.write_str(match self {
            Kind::Pool => "pools",
            Kind::Insert => "inserts",
            Kind::InsertIncluded => "inserts, end included",
            Kind::Delete => "deletes",
            Kind::DeleteIncluded => "deletes, end included",
            Kind::DeleteMin => "delete-min",
            Kind::DeleteMax => "delete-max",
            Kind::Clear => "clear",
            Kind::Query => "queries",
            Kind::QueryIncluded => "queries, end included",
            Kind::Row => "rows",
            Kind::Tree => "trees",
            Kind::Node => "nodes",
            Kind::End => "ends of the list",
        })
    }
}
