//! A session behind its handshake: rounds of requests and replies.
ghost use Rattle.std.specs.Prelude.{◌≡◌, ◌≢◌, ◌⊎◌, ◌↔◌, ◌≤◌, ◌+◌, ℕ, List, [], Some, Result, Err, length, drop, IsTrue, OnOk, IfOk, IsErrOf};
ghost use Rattle.outside_io.specs.Causes.{Rose};
ghost use Rattle.outside_io.specs.Written.{AllFlushed};
ghost use Rattle.nbd_front.specs.Sessions.{IsPart};
ghost use Rattle.store_front.specs.Refusals.{IsRefused, RefusesWrite};
ghost use Rattle.store_front.specs.Replies.{ServesRound};
ghost use Rattle.store_front.specs.Requests.{most_at_hand};
ghost use Rattle.store_front.specs.Sessions.{EndsSo, EndsWait, IsSession, TakesTurn, told_place};

use crate::answer::answer;
use crate::input::Input;
use crate::keeper::Keeper;
use crate::refusing::{drop_data, reply_error};
use crate::round::take_round;
use crate::standing::{HEAD, Standing, at_front};
use crate::waiting::{Came, has_next};
use crate::writing::write_or_end;
use disk_model::Disk;
use lists::NoMemory;
use nbd_front::SessionEnd;
use nbd_front::request::Request;
use outside_io::{Sink, Source};
use quorum_rules::Config;
use std::alloc::Global;
use std::marker::Model;
use std::thread::Threads;
use store_device::Store;

/// A session that has begun. Its rounds are served one by one, so that a caller may look after the store between two.
/// Contracts see the input that was read and isn't served yet, and how many bytes of requests were served.
#[derive(Drop)]
pub struct Session {
    input: Input,
    place: u64,
}

impl Model for Session {
    ghost use Rattle.store_front.specs.Sessions.{SeenSession};

    ghost Value = { SeenSession };

    ghost view = { λ s. record { input = s.input; place = s.place } };
}

impl Session {
    /// Begins a session, of which nothing was read.
    pub fn begin(alloc: Global) -> Result<Session, NoMemory>
        ensures fresh { IfOk result (λ session. session ≡ record { input = []; place = 0 }) }
    {
        Ok(Session {
            input: Input::new(alloc)?,
            place: 0,
        })
    }

    /// Whether something is at hand that ends the wait, so that nothing is to be read first.
    pub fn is_ready(&self) -> bool
        ensures { IsTrue result ↔ (IsPart self.now.input → ⊥) }
    {
        at_front(self.input.at_hand()) != Standing::Part
    }

    /// Reads until a whole request is at hand, or the head of a write that is refused, and tells what has come.
    pub fn wait<S: Source>(&mut self, config: &Config, source: &mut S) -> Result<Came, SessionEnd>
        ensures waited { EndsWait config.now result self.old.place self.old.input self.new.input
            (S.left source.old) (S.left source.new) }
        ensures place { self.new.place ≡ self.old.place }
        // of the data of a write that is refused no more is kept
        ensures few { length self.old.input ≤ most_at_hand
            → OnOk result (length self.new.input ≤ most_at_hand) }
        ensures fault { IsErrOf result SessionEnd.ReadFault
            → Rose S.last (S.faults source.old) (S.faults source.new) }
        ensures calm { result ≢ Err SessionEnd.ReadFault
            → S.faults source.new ≡ S.faults source.old }
    {
        has_next(config, &mut self.input, source, self.place)
    }

    /// Serves the requests at hand that are done together: the replies are written in one piece, and flushed. Gives how
    /// many bytes the requests have.
    pub fn serve_round<D: Disk + Send, K: Sink, R: Threads + Sync>(
        &mut self,
        rt: &R,
        alloc: Global,
        store: &mut Store<D>,
        sink: &mut K,
    ) -> Result<usize, SessionEnd>
        ensures config { store.new.config ≡ store.old.config }
        // the replies to these requests, by what the store told of the calls that were made for them
        ensures round { ServesRound D.pending D.seen D.most D.moment D.left_since store.old.config
            self.old.input store.old store.new (K.taken sink.old) (K.taken sink.new) result }
        // they are served
        ensures served { IfOk result (λ len. self.new.input ≡ drop len self.old.input) }
        ensures place { IfOk result (λ len. self.new.place ≡ told_place (self.old.place + len)) }
        ensures flushed { OnOk result (AllFlushed (K.taken sink.new) (K.flushed sink.new)) }
        ensures write_fault { IsErrOf result SessionEnd.WriteFault
            → Rose K.last (K.faults sink.old) (K.faults sink.new) }
        ensures calm { result ≢ Err SessionEnd.WriteFault → K.faults sink.new ≡ K.faults sink.old }
    {
        let len = serve_round(rt, alloc, store, self.input.at_hand(), sink)?;
        self.input.drop_front(len);
        self.place = self.place.saturating_add(len as u64);
        Ok(len)
    }

    /// Drops what is to come of a write that is refused, and replies to it. Gives how many bytes it has.
    pub fn refuse<S: Source, K: Sink>(
        &mut self,
        alloc: Global,
        config: &Config,
        request: &Request,
        source: &mut S,
        sink: &mut K,
    ) -> Result<usize, SessionEnd>
        requires { IsRefused config.now self.old.input request.now }
        ensures refused { RefusesWrite config.now request.now self.old.place self.old.input
            (S.left source.old) (S.left source.new) (K.taken sink.old) (K.taken sink.new) result }
        ensures served { OnOk result (self.new.input ≡ []) }
        ensures place { IfOk result (λ len. self.new.place ≡ told_place (self.old.place + len)) }
        ensures flushed { OnOk result (AllFlushed (K.taken sink.new) (K.flushed sink.new)) }
        ensures read_fault { IsErrOf result SessionEnd.ReadFault
            → Rose S.last (S.faults source.old) (S.faults source.new) }
        ensures write_fault { IsErrOf result SessionEnd.WriteFault
            → Rose K.last (K.faults sink.old) (K.faults sink.new) }
        ensures calm_source { result ≢ Err SessionEnd.ReadFault
            → S.faults source.new ≡ S.faults source.old }
        ensures calm_sink { result ≢ Err SessionEnd.WriteFault
            → K.faults sink.new ≡ K.faults sink.old }
    {
        let come = self.input.at_hand().len();
        let len = HEAD + request.len as usize;
        drop_data(source, (len - come) as u32, self.place)?;
        reply_error(alloc, config, request, sink)?;
        self.input.drop_front(come);
        self.place = self.place.saturating_add(len as u64);
        Ok(len)
    }

    /// Waits for requests, and serves those that are done together, or refuses a write. Gives how many bytes they have;
    /// none where the client leaves, or the input has ended.
    pub fn serve_next<D: Disk + Send, S: Source, K: Sink, R: Threads + Sync>(
        &mut self,
        rt: &R,
        alloc: Global,
        store: &mut Store<D>,
        source: &mut S,
        sink: &mut K,
    ) -> Result<Option<usize>, SessionEnd>
        ensures config { store.new.config ≡ store.old.config }
        ensures turn { TakesTurn D.pending D.seen D.most D.moment D.left_since store.old.config
            self.old self.new store.old store.new (S.left source.old) (S.left source.new)
            (K.taken sink.old) (K.taken sink.new) result }
        ensures read_fault { IsErrOf result SessionEnd.ReadFault
            → Rose S.last (S.faults source.old) (S.faults source.new) }
        ensures write_fault { IsErrOf result SessionEnd.WriteFault
            → Rose K.last (K.faults sink.old) (K.faults sink.new) }
        ensures calm_source { result ≢ Err SessionEnd.ReadFault
            → S.faults source.new ≡ S.faults source.old }
        ensures calm_sink { result ≢ Err SessionEnd.WriteFault
            → K.faults sink.new ≡ K.faults sink.old }
    {
        match self.wait(store.config(), source)? {
            Came::Nothing => Ok(None),
            Came::Requests => Ok(Some(self.serve_round(rt, alloc, store, sink)?)),
            Came::Refused(request) => {
                Ok(Some(self.refuse(alloc, store.config(), &request, source, sink)?))
            }
        }
    }
}

/// Serves a store's bytes to a client behind its handshake until the session ends, and has the store looked after
/// before each wait for a request. `TooManyRequests` comes only after 2^64 - 1 rounds.
pub fn serve<D: Disk + Send, U: Keeper<D>, S: Source, K: Sink, R: Threads + Sync>(
    rt: &R,
    alloc: Global,
    store: &mut Store<D>,
    keeper: &mut U,
    source: &mut S,
    sink: &mut K,
) -> Result<(), SessionEnd>
    requires ready { U.ready keeper.old }
    ensures session { IsSession D.pending D.seen D.most D.moment D.left_since U.keeps store.old.config
        store.old store.new result (S.left source.old) (S.left source.new) (K.taken sink.old)
        (K.taken sink.new) }
    ensures config { store.new.config ≡ store.old.config }
    // faults
    ensures read_fault { IsErrOf result SessionEnd.ReadFault
        → Rose S.last (S.faults source.old) (S.faults source.new) }
    ensures write_fault { IsErrOf result SessionEnd.WriteFault
        → Rose K.last (K.faults sink.old) (K.faults sink.new) }
    ensures calm_source { result ≢ Err SessionEnd.ReadFault
        → S.faults source.new ≡ S.faults source.old }
    ensures calm_sink { result ≢ Err SessionEnd.WriteFault → K.faults sink.new ≡ K.faults sink.old }
    // where there is memory, an input that meets no fault is served to its end, and that is how it says
    ensures complete { (input : List ℕ) (end : Result Unit SessionEnd)
        → S.left source.old ≡ Some input → EndsSo end input
        → (Rose S.last (S.faults source.old) (S.faults source.new) → ⊥)
        → (Rose K.last (K.faults sink.old) (K.faults sink.new) → ⊥)
        → (result ≡ end) ⊎ ((result ≡ Err SessionEnd.NoMemory) ⊎ (result ≡ Err SessionEnd.TooManyRequests)) }
{
    let mut session = Session::begin(alloc)?;
    let mut served = 0;
    for _round in 0..u64::MAX {
        keeper.tend(store, served, session.is_ready())?;
        match session.serve_next(rt, alloc, store, source, sink)? {
            None => return Ok(()),
            Some(len) => served = len,
        }
    }
    Err(SessionEnd::TooManyRequests)
}

/// Serves the requests at the front of the input at hand that are done together, and answers how many bytes they have.
fn serve_round<D: Disk + Send, K: Sink, R: Threads + Sync>(
    rt: &R,
    alloc: Global,
    store: &mut Store<D>,
    at_hand: &[u8],
    sink: &mut K,
) -> Result<usize, SessionEnd>
    ensures len { IfOk result (λ len. len ≤ length at_hand.now) }
    ensures config { store.new.config ≡ store.old.config }
    ensures round { ServesRound D.pending D.seen D.most D.moment D.left_since store.old.config at_hand.now
        store.old store.new (K.taken sink.old) (K.taken sink.new) result }
    ensures flushed { OnOk result (AllFlushed (K.taken sink.new) (K.flushed sink.new)) }
    ensures fault { IsErrOf result SessionEnd.WriteFault
        → Rose K.last (K.faults sink.old) (K.faults sink.new) }
    ensures calm { result ≢ Err SessionEnd.WriteFault → K.faults sink.new ≡ K.faults sink.old }
{
    let round = take_round(alloc, store.config(), at_hand)?;
    let replies = answer(rt, alloc, store, &round)?;
    write_or_end(sink, &replies)?;
    Ok(round.len)
}
