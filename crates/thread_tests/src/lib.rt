//! Threads beside one another: crews, whose thread states wait for one another or may be worked by any thread; inboxes, with two senders and
//! a taker; numbers that are drawn and receipts that are given; and cells act by act, what they tell and what stands in their
//! journals; and slices whose places are called in threads. Tests alone.
#![tactic(auto)]

#[cfg(test)]
mod acts;
#[cfg(test)]
mod clocks;
#[cfg(test)]
mod pairs;
#[cfg(test)]
mod posts;
#[cfg(test)]
mod spreads;
#[cfg(test)]
mod two_senders;
#[cfg(test)]
mod vaults;
