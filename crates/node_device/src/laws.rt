//! Laws of device commands in runs, each the contract of a function that does nothing.
//!
//! They speak of every run in which no two different strings that were seen share a digest. A command's operations stand in
//! the history, one after the other; and while they are done nobody else works on the command's blocks.
ghost use Rattle.node_device.specs.Laws.{InEachHistory, PutsGoIn, PutsAreMerged, GetsGiveTheirRange, GetsGiveWhatWasPut};

/// A put leaves its bytes in their place, and each other byte as it was: block by block, where nobody else works on the
/// block, whatever is done to others; and of all bytes at once where nobody else works at all.
pub fn puts_go_in()
    ensures blocks { InEachHistory PutsGoIn }
    ensures array { InEachHistory PutsAreMerged }
{
    block_device::laws::puts_write_their_range();
    protocol::laws::safety();
    protocol::laws::one_history();
    protocol::laws::records();
}

/// A get gives the bytes of its range; after a put of just this range, those that were put.
pub fn gets_give_their_range()
    ensures range { InEachHistory GetsGiveTheirRange }
    ensures put { InEachHistory GetsGiveWhatWasPut }
{
    block_device::laws::puts_write_their_range();
    block_device::laws::gets_read_their_range();
    protocol::laws::safety();
    protocol::laws::one_history();
    protocol::laws::records();
}
