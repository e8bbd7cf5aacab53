ghost use Rattle.std.specs.Prelude.{◌≡◌, Some};
ghost use Rattle.store_words.specs.Lines.{down_text, file_text};

use file_disk::FileRefusal;
use std::fmt;

/// Why a node is down.
#[derive(Clone, Copy, Debug, PartialEq, Eq)]
pub enum Down {
    /// The word `-` stands for its directory.
    Gone,
    /// Its file `cluster` can't be read.
    NoCluster,
    /// This line of its file `cluster`, counted from 1, is wrong.
    BadLine(u8),
    /// Its directory is one of another store.
    OtherStore,
    /// Its directory is that of this node, and stands in another's place.
    OtherNode(u8),
    /// Its journal can't be opened.
    Journal(FileRefusal),
    /// This slot of its journal, counted from 0, isn't one that it wrote.
    Damaged(u64),
    /// Its disk failed.
    Fault,
    /// No memory was found for its journal.
    NoMemory,
}

/// What is said of it.
impl fmt::Display for Down {
    ghost output = { λ why. Some (down_text why) };

    fn fmt<W: fmt::Write>(&self, f: &mut fmt::Formatter<W>) -> fmt::Result {
        match self {
            Down::Gone => write!(f, "it is said to be gone"),
            Down::NoCluster => write!(f, "its file cluster can't be read"),
            Down::BadLine(line) => write!(f, "line {line} of its file cluster is wrong"),
            Down::OtherStore => write!(f, "it is of another store"),
            Down::OtherNode(node) => {
                write!(f, "it is node {node}, and stands in another's place")
            }
            Down::Journal(why) => write!(f, "its journal can't be opened: {}", told(*why)),
            Down::Damaged(slot) => {
                write!(f, "slot {slot} of its journal isn't one that it wrote")
            }
            Down::Fault => write!(f, "its disk failed"),
            Down::NoMemory => write!(f, "no memory for its journal"),
        }
    }
}

// Why a journal's file wasn't opened.
fn told(refusal: FileRefusal) -> &'static str
    ensures { result.now ≡ file_text refusal }
{
    match refusal {
        FileRefusal::Missing => "no file stands there",
        FileRefusal::NotPlain => "what stands there is no plain file",
        FileRefusal::Locked => "another process has the file open",
        FileRefusal::Replaced => "the file was replaced while it was opened",
        FileRefusal::TooLong => "the file is too long",
        FileRefusal::NoMemory => "no memory for the file's bytes",
        FileRefusal::Fault => "the system failed",
    }
}
