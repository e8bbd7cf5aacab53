use store_words::Status;

const HELP: &str = "\
pasis_store keeps a block device on directories: each block lies in fragments in N of them.

pasis_store create N T B QC M SIZE BLOCKS DIR ..  makes a store: N directories, each new or empty; T may be lost, B may have wrong bytes;
                                                  M fragments make a block of SIZE bytes; there are BLOCKS blocks
pasis_store serve DIR ..                          serves the device over standard input and output, as an NBD server; - for one that is gone
pasis_store status DIR ..                         tells of each node whether it is up; exits with 0, 1 (some are down) or 4 (too many)
pasis_store scrub DIR ..                          reads every block, restores every node, prunes and compacts
pasis_store renew I DIR ..                        gives node I, whose directory is empty or gone, a new one, and scrubs
pasis_store --help | --version
";

/// Prints the words.
pub fn help(rt: &HostRuntime) -> Status {
    match print!(rt; "{HELP}") {
        Ok(()) => Status::Done,
        Err(_) => Status::Failed,
    }
}

/// Prints the version.
pub fn version(rt: &HostRuntime) -> Status {
    match println!(rt; "pasis_store 1") {
        Ok(()) => Status::Done,
        Err(_) => Status::Failed,
    }
}
