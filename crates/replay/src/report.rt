// What the program writes: how many lines of each kind there were, how many numbers were compared, and how many differ.
use lines::counts::Counts;
use lines::kind::Kind;
use std::io;

// A line for each count.
pub fn report(rt: &impl Print, counts: &Counts) -> io::Result<()> {
    for kind in Kind::ALL {
        println!(rt; "{kind} {}", counts.of(kind))?;
    }
    println!(rt; "other lines {}", counts.others)?;
    println!(rt; "numbers compared {}", counts.compared)?;
    println!(rt; "differences {}", counts.differences)
}
