ghost use Rattle.std.specs.Prelude.{◌≡◌};
ghost use Rattle.store_words.specs.Statuses.{number_of, status_of_down, status_of_scrub};

/// What the program ends with.
#[derive(Clone, Copy, Debug, PartialEq, Eq)]
pub enum Status {
    /// All was done, and all is well.
    Done,
    /// Some nodes are down, and no more than may be; or something was mended.
    Mended,
    /// The words are no command's.
    BadWords,
    /// The system failed, memory or the client did.
    Failed,
    /// More nodes are down than may be, or a block couldn't be read or written again.
    TooFew,
}

impl Status {
    /// The number with which the program ends.
    pub fn number(&self) -> u8
        ensures { result ≡ number_of self.now }
    {
        match self {
            Status::Done => 0,
            Status::Mended => 1,
            Status::BadWords => 2,
            Status::Failed => 3,
            Status::TooFew => 4,
        }
    }

    /// The status where so many nodes are down, and so many may be.
    pub fn of_down(down: u64, most: u32) -> Status
        ensures { result ≡ status_of_down down most }
    {
        match down {
            0 => Status::Done,
            _ if down <= u64::from(most) => Status::Mended,
            _ => Status::TooFew,
        }
    }

    /// The status of a scrub in which every block was read, by whether some node didn't hold what was read.
    pub fn of_scrub(lacking: bool) -> Status
        ensures { result ≡ status_of_scrub lacking }
    {
        if lacking {
            Status::Mended
        } else {
            Status::Done
        }
    }
}
