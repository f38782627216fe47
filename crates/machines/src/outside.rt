//! What is peculiar to the outside of a case, as its line tells it in front of the script's name, in this order:
//!
//! - `held M C until N D`: call C of machine M is held until call D of machine N has left;
//! - `make F L`: disks F to L can't be made;
//! - `start F L`: starts F to L of machine 1's children fail;
//! - `slow F T`: the start of machine 1's children behind F others takes T milliseconds;
//! - `delta F L`, `resource F L`: calls F to L of machine 1's worker of that part fail;
//! - `endless`: no child of machine 1 exits by itself, or by a term;
//! - `counted`: how many children of machines 1 and 2 ran at once at most, is told;
//! - `numbers`: of a reply only the machine and the number of the job are printed.

use sl_outside::Turn;

/// The first and the last of some numbers.
pub type Ends = (u32, u32);

/// A case: a live script, and what its disks, children and faults are planned to do.
#[derive(Clone, Copy)]
pub struct Case<'a> {
    /// The call that is held, and the one that it is held for.
    pub held: Option<(Turn, Turn)>,
    pub makes: Option<Ends>,
    pub starts: Option<Ends>,
    /// Behind how many others a start takes its time, and how long.
    pub slow: Option<Ends>,
    pub delta: Option<Ends>,
    pub resource: Option<Ends>,
    pub endless: bool,
    pub counted: bool,
    pub numbers: bool,
    /// The name of the file that has the script.
    pub name: &'a str,
}

/// The two numbers behind this word at the front of a line, and the rest of the line.
fn option<'a>(line: &'a str, word: &str) -> (Option<Ends>, &'a str) {
    let Some((first, behind)) = line.split_once(' ') else {
        return (None, line);
    };
    if first != word {
        return (None, line);
    }
    let (one, behind) = behind.split_once(' ').unwrap_or((behind, ""));
    let (other, rest) = behind.split_once(' ').unwrap_or((behind, ""));
    match (one.parse(), other.parse()) {
        (Ok(one), Ok(other)) => (Some((one, other)), rest),
        _ => (None, line),
    }
}

/// Whether the word stands at the front of a line, and the rest of the line.
fn flag<'a>(line: &'a str, word: &str) -> (bool, &'a str) {
    match line.split_once(' ') {
        Some((first, rest)) if first == word => (true, rest),
        _ => (false, line),
    }
}

/// The call of this number of a machine.
fn turn((machine, call): Ends) -> Turn {
    Turn {
        machine,
        call: u64::from(call),
    }
}

/// The calls that are named behind `held` and `until`, if both are.
fn turns(held: Option<Ends>, until: Option<Ends>) -> Option<(Turn, Turn)> {
    Some((turn(held?), turn(until?)))
}

/// The case that a line of words spells.
pub fn read_case(line: &str) -> Case<'_> {
    let (held, line) = option(line, "held");
    let (until, line) = option(line, "until");
    let (makes, line) = option(line, "make");
    let (starts, line) = option(line, "start");
    let (slow, line) = option(line, "slow");
    let (delta, line) = option(line, "delta");
    let (resource, line) = option(line, "resource");
    let (endless, line) = flag(line, "endless");
    let (counted, line) = flag(line, "counted");
    let (numbers, name) = flag(line, "numbers");
    Case {
        held: turns(held, until),
        makes,
        starts,
        slow,
        delta,
        resource,
        endless,
        counted,
        numbers,
        name,
    }
}
