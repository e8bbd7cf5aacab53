//! Cases as they are written down: a line `# NAME` begins one, and these lines follow, in any order. Lines before the first
//! case are a comment, and empty lines are nothing.
//!
//! | Line | Meaning |
//! |---|---|
//! | `words WORD..` | the words of the command line |
//! | `< TEXT` | a line of the input; where the text ends with `A..B`, a line for each of the numbers |
//! | `<N TEXT` | that line N times |
//! | `<\| TEXT` | the input's last bytes, with no newline |
//! | `reads MOST [K]` | the source gives at most so many bytes at once, and its call K fails, counted from 0 |
//! | `> TEXT`, `>\| TEXT` | what is written, as of the input |
//! | `writes MOST [K]` | the sink takes at most so many bytes at once, and its call K fails |
//! | `ends TEXT` | the last line that is written begins so, and the others aren't compared |
//! | `has N TEXT` | so many of the lines that are written begin so, and the others aren't compared |
//! | `replays` | what stands before the line `report` is a script, and `replay` writes for it what stands after that line |
//! | `legal` | what stands after the line `report` is a report, and `check` finds it legal |
//! | `ended LEAST MOST PENDING` | LEAST operations or more are done or spent, PENDING or less are pending, all in all MOST or less |
//! | `times N` | the case is run so often |
//! | `each call fails` | the case is also run with each call of the source failing in turn, and with each of the sink; there are as many as the bytes need, and one more |
//! | `tells NAME` | nothing is run: what is told is the status of that name, to which no case can come |
//! | `! TEXT` | a line on standard error |
//! | `status N` | the exit status, if it isn't 0 |

use std::alloc::Global;
use std::io;
use std::io::Write;

/// How many bytes a call of a source or a sink moves at most, and the number of the call that fails.
#[derive(Clone, Copy)]
pub struct Pace {
    pub most: usize,
    pub failing: Option<u64>,
}

impl Pace {
    /// The same, but that this call fails.
    pub fn failing_at(self, call: u64) -> Pace {
        Pace {
            most: self.most,
            failing: Some(call),
        }
    }
}

/// How many operations have ended, and how many are pending.
#[derive(Clone, Copy)]
pub struct Ended {
    pub least: u64,
    /// At most so many have ended or are pending.
    pub most: u64,
    pub pending: u64,
}

/// What the program is given, and what must come of it.
#[derive(Drop)]
pub struct Case {
    pub name: String,
    pub words: Vec<String>,
    pub input: Vec<u8>,
    pub reads: Pace,
    pub output: Vec<u8>,
    pub writes: Pace,
    pub told: Vec<u8>,
    pub status: u8,
    /// How the last line that is written begins, where that is all that is compared.
    pub end: Option<String>,
    /// How many lines begin so: `N TEXT`.
    pub counts: Vec<String>,
    /// What is written is a trace, whose script replays to its report.
    pub replays: bool,
    /// What is written is a trace, whose report is legal.
    pub is_legal: bool,
    /// What the report's last line counts, where that is compared.
    pub ended: Option<Ended>,
    /// It is run so often.
    pub times: u32,
    /// The calls fail in turn.
    pub fails_in_turn: bool,
    /// The name of the status that is told, where nothing is run.
    pub tells: Option<String>,
    /// Each line is one of those that cases have.
    pub is_readable: bool,
}

/// All at once, and no call fails.
pub const WIDE: Pace = Pace {
    most: 4096,
    failing: None,
};

impl Case {
    fn new(alloc: Global, name: &str) -> io::Result<Case> {
        Ok(Case {
            name: String::from_str(alloc, name)?,
            words: Vec::new(alloc),
            input: Vec::new(alloc),
            reads: WIDE,
            output: Vec::new(alloc),
            writes: WIDE,
            told: Vec::new(alloc),
            status: 0,
            end: None,
            counts: Vec::new(alloc),
            replays: false,
            is_legal: false,
            ended: None,
            times: 1,
            fails_in_turn: false,
            tells: None,
            is_readable: true,
        })
    }

    fn add_words(&mut self, alloc: Global, words: &str) -> io::Result<()> {
        for word in words.split(' ') {
            self.words.push(String::from_str(alloc, word)?)?;
        }
        Ok(())
    }

    fn add(&mut self, alloc: Global, line: &str) -> io::Result<()> {
        let Some((mark, text)) = line.split_once(' ') else {
            return self.add_bare(line);
        };
        if self.set(mark, text) {
            Ok(())
        } else {
            self.add_text(alloc, mark, text)
        }
    }

    // Sets what isn't text, if the mark is one of such. Whether it is.
    fn set(&mut self, mark: &str, text: &str) -> bool {
        match mark {
            "reads" => self.reads = pace_of(text),
            "writes" => self.writes = pace_of(text),
            "status" => self.status = text.parse().unwrap_or(u8::MAX),
            "ended" => self.ended = Some(ended_of(text)),
            "times" => self.set_times(text),
            "each" => self.set_each(text),
            _ => return false,
        }
        true
    }

    fn set_each(&mut self, text: &str) {
        if text == "call fails" {
            self.fails_in_turn = true;
        } else {
            self.is_readable = false;
        }
    }

    fn set_times(&mut self, number: &str) {
        let times: u32 = number.parse().unwrap_or(0);
        if times == 0 {
            self.is_readable = false;
        } else {
            self.times = times;
        }
    }

    // A line with a mark alone.
    fn add_bare(&mut self, line: &str) -> io::Result<()> {
        match line {
            "" | "words" => Ok(()),
            "replays" => {
                self.replays = true;
                Ok(())
            }
            "legal" => {
                self.is_legal = true;
                Ok(())
            }
            _ => self.add_lines(line, ""),
        }
    }

    fn add_text(&mut self, alloc: Global, mark: &str, text: &str) -> io::Result<()> {
        match mark {
            "words" => self.add_words(alloc, text),
            "ends" => self.set_end(alloc, text),
            "has" => self.add_count(alloc, text),
            "tells" => self.set_tells(alloc, text),
            "!" => add_line(&mut self.told, text),
            _ => self.add_lines(mark, text),
        }
    }

    fn set_end(&mut self, alloc: Global, text: &str) -> io::Result<()> {
        self.end = Some(String::from_str(alloc, text)?);
        Ok(())
    }

    fn set_tells(&mut self, alloc: Global, name: &str) -> io::Result<()> {
        self.tells = Some(String::from_str(alloc, name)?);
        Ok(())
    }

    fn add_count(&mut self, alloc: Global, count: &str) -> io::Result<()> {
        self.counts.push(String::from_str(alloc, count)?)?;
        Ok(())
    }

    // A line of the input or of the output.
    fn add_lines(&mut self, mark: &str, text: &str) -> io::Result<()> {
        if let Some(count) = mark.strip_prefix("<") {
            add_lines(&mut self.input, count, text)
        } else if let Some(count) = mark.strip_prefix(">") {
            add_lines(&mut self.output, count, text)
        } else {
            self.is_readable = false;
            Ok(())
        }
    }
}

fn pace_of(text: &str) -> Pace {
    let (most, failing) = text.split_once(' ').unwrap_or((text, ""));
    Pace {
        most: most.parse().unwrap_or(1),
        failing: failing.parse().ok(),
    }
}

/// The number that follows the name in the field at a place.
pub fn number_at(line: &str, place: usize, name: &str) -> Option<u64> {
    let field = line.split(' ').nth(place)?;
    field.strip_prefix(name)?.parse().ok()
}

// Where a number is missing, no report has such counts.
fn ended_of(text: &str) -> Ended {
    Ended {
        least: number_at(text, 0, "").unwrap_or(u64::MAX),
        most: number_at(text, 1, "").unwrap_or(0),
        pending: number_at(text, 2, "").unwrap_or(0),
    }
}

// A line as often as the mark says after its first character.
fn add_lines(bytes: &mut Vec<u8>, count: &str, line: &str) -> io::Result<()> {
    match count {
        "|" => bytes.extend_from_slice(line.as_bytes())?,
        "" => add_line_or_range(bytes, line)?,
        _ => {
            for _ in 0..count.parse().unwrap_or(0u32) {
                add_line(bytes, line)?;
            }
        }
    }
    Ok(())
}

fn add_line(bytes: &mut Vec<u8>, line: &str) -> io::Result<()> {
    bytes.extend_from_slice(line.as_bytes())?;
    bytes.push(b'\n')?;
    Ok(())
}

// The front of a line and the numbers of the range at its end.
fn range_of(line: &str) -> Option<(&str, u8, u8)> {
    let (front, last) = line.split_once("..")?;
    let (front, first) = front.rsplit_once(' ')?;
    Some((front, first.parse().ok()?, last.parse().ok()?))
}

fn add_line_or_range(bytes: &mut Vec<u8>, line: &str) -> io::Result<()> {
    let Some((front, first, last)) = range_of(line) else {
        return add_line(bytes, line);
    };
    for number in first..=last {
        writeln!(bytes, "{front} {number}")?;
    }
    Ok(())
}

// A line of a file, which begins a case or is one of the last case's.
fn add_to(cases: &mut Vec<Case>, alloc: Global, line: &str) -> io::Result<()> {
    if let Some(name) = line.strip_prefix("# ") {
        cases.push(Case::new(alloc, name)?)?;
    } else if let Some(case) = cases.last_mut() {
        case.add(alloc, line)?;
    }
    Ok(())
}

/// The cases of a file.
pub fn cases_of(alloc: Global, text: &str) -> io::Result<Vec<Case>> {
    let mut cases = Vec::new(alloc);
    for line in text.lines() {
        add_to(&mut cases, alloc, line)?;
    }
    Ok(cases)
}
