//! Cases as they are written down, a line for each, with one space between two words. Lines that begin with `#` are comments.
//!
//! | Word | Meaning |
//! |---|---|
//! | 1 | the case's name |
//! | 2 to 8 | the cluster's numbers: n, t, b, qc, m, size, blocks |
//! | 9 | the seed |
//! | 10, 11 | sessions, and the batches of each |
//! | 12, 13 | disks of which a call fails in a session, at most, and how many calls it is one of |
//! | 14 | nodes that are gone for a session, at most |
//! | 15 | nodes whose journals others change before sessions |
//! | 16 | what is pruned after each batch: 1 where it is blocks from a drawn one on, by the stamps that reads gave; 2 where it is what the store remembers; k above 2 where it is what the store remembers of blocks of which a node keeps more than k-2 versions |
//! | 17 | where it isn't 0, the case is played for each node and each of so many calls of its disk, which fails in the first session |
//! | 18 | where it isn't 0, so many disks are replaced before each session, first those of nodes whose journals others change, and then filled; others change other journals from then on |

/// What is pruned after each batch.
#[derive(Clone, Copy)]
pub enum Pruning {
    Nothing,
    /// Blocks from a drawn one on, by the stamps that reads gave.
    ByReads,
    /// The blocks of which the store remembers stamps, and a node keeps more than so many versions.
    ByRemembered(usize),
}

/// What is done in a session.
#[derive(Clone, Copy)]
pub struct Session {
    pub batches: u32,
    /// So many disks fail at most.
    pub faults: u32,
    /// One of so many calls of each of them.
    pub calls: u32,
    /// So many nodes are gone at most.
    pub gone: u32,
    pub pruning: Pruning,
    /// Others change so many nodes' journals.
    pub changed: u32,
    /// So many disks are replaced before.
    pub replaced: u32,
}

/// A case.
#[derive(Clone, Copy)]
pub struct Case<'a> {
    pub name: &'a str,
    /// n, t, b, qc, m, size, blocks
    pub cluster: [u32; 7],
    pub seed: u32,
    pub sessions: u32,
    pub session: Session,
    /// So many calls of each disk fail in turn.
    pub turns: u32,
}

/// The case of a line, if it is one.
pub fn case_of(line: &str) -> Option<Case<'_>> {
    let mut words = line.split(' ');
    let name = words.next()?;
    let mut numbers = [0u32; 17];
    for number in &mut numbers {
        *number = words.next()?.parse().ok()?;
    }
    if words.next().is_some() {
        return None;
    }
    Some(with_numbers(name, numbers))
}

fn pruning_of(number: u32) -> Pruning {
    match number {
        0 => Pruning::Nothing,
        1 => Pruning::ByReads,
        _ => Pruning::ByRemembered(number.saturating_sub(2) as usize),
    }
}

fn with_numbers(name: &str, numbers: [u32; 17]) -> Case<'_> {
    let [
        n,
        t,
        b,
        qc,
        m,
        size,
        blocks,
        seed,
        sessions,
        batches,
        faults,
        calls,
        gone,
        changed,
        prunes,
        turns,
        replaced,
    ] = numbers;
    Case {
        name,
        cluster: [n, t, b, qc, m, size, blocks],
        seed,
        sessions,
        session: Session {
            batches,
            faults,
            calls,
            gone,
            pruning: pruning_of(prunes),
            changed,
            replaced,
        },
        turns,
    }
}
