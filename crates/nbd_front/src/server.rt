ghost use Rattle.std.specs.Prelude.{◌≡◌, ◌≢◌, ◌⊎◌, ◌≤◌, ◌+◌, ◌*◌, ◌<◌, ℕ, List, Some, Result, Ok, Err, [], length, replicate, OnOk, OnErr, IfOk, IfErr, IsSome};
ghost use Rattle.outside_io.specs.Causes.{Rose};
ghost use Rattle.outside_io.specs.Written.{Adds, AllFlushed, TakesPrefix};
ghost use Rattle.quorum_rules.specs.Limits.{wait_of};
ghost use Rattle.protocol.specs.Setting.{zeros, Sound};
ghost use Rattle.protocol.specs.Instance.{setting};
ghost use Rattle.node_device.specs.Held.{version_of};
ghost use Rattle.nbd_front.specs.Replies.{greeting};
ghost use Rattle.nbd_front.specs.Arrays.{time_at};
ghost use Rattle.nbd_front.specs.Sessions.{most_requests, IsSession, EndsSo};
ghost use Rattle.nbd_front.specs.Servers.{bytes_of, block_of, HasCarriedOut, HasStepped, IsAsked};
ghost use Rattle.nbd_front.specs.Outcomes.{outcome, given_back, closing};

use crate::ending::{Served, SessionEnd};
use crate::reply::greeting;
use crate::turn::{Asked, carry_out, take_request};
use block_device::device_len;
use lists::NoMemory;
use node_device::NodeDevice;
use outside_io::{Sink, Source, write_all};
use quorum_rules::Config;
use std::alloc::Global;
use std::marker::Model;
use wire_forms::Version;

/// A block device that is served over a source and a sink. Its blocks are kept by nodes in the same process, and read and
/// written by one client. Contracts see the device, how many requests were served, and how many bytes of the input they had.
#[derive(Drop)]
pub struct Server {
    device: NodeDevice,
    served: u64,
    place: u64,
}

impl Model for Server {
    ghost use Rattle.nbd_front.specs.Servers.{SeenServer, IsServer};

    ghost Value = { SeenServer };

    ghost view = { λ s. record {
      device = s.device;
      served = s.served;
      place = s.place;
    } };

    ghost invariant = { λ s. IsServer s.device s.served s.place };
}

/// Why a session stopped. The server is given back, but where no memory was found for what a request asks.
#[derive(Drop)]
pub struct Stopped {
    pub end: SessionEnd,
    pub server: Option<Server>,
}

impl From<NoMemory> for Stopped {
    ghost use Rattle.std.specs.Prelude.{◌≡◌, None};
    ghost use Rattle.nbd_front.specs.declared.ending.SessionEnd.TheVariants.{NoMemory as NoMemoryEnd};

    ghost from_gives = { λ _ e. (e.end ≡ NoMemoryEnd) × (e.server ≡ None) };

    fn from(_: NoMemory) -> Stopped {
        Stopped {
            end: SessionEnd::NoMemory,
            server: None,
        }
    }
}

impl Server {
    /// A server of a device whose bytes are all 0.
    pub fn new(alloc: Global, config: &Config) -> Result<Server, NoMemory>
        requires { config.now.blocks ≤ 65536 }
        ensures fresh { IfOk result (λ s. (s.served ≡ 0) × (s.place ≡ 0)) }
        ensures config { IfOk result (λ s. s.device.config ≡ config.now) }
        ensures zeros { IfOk result (λ s. bytes_of s
            ≡ replicate (config.now.size * config.now.blocks) 0) }
        ensures unwritten { IfOk result (λ s.
            (k : ℕ) → k < config.now.blocks → time_at s.device k ≡ 0) }
    {
        Ok(Server {
            device: NodeDevice::new(alloc, config)?,
            served: 0,
            place: 0,
        })
    }

    /// The version that a node which is asked finds of a block: that of its bytes, at the time that tells how often it was written;
    /// the first version where it never was.
    pub fn held(&self, node: u8, block: u32) -> Result<Version, NoMemory>
        requires node { node < wait_of self.now.device.config }
        requires block { block < self.now.device.config.blocks }
        ensures version { IfOk result (λ v. v
            ≡ version_of self.now.device.config node (block_of self.now block)) }
        ensures sound { IfOk result (λ v.
            Sound (setting self.now.device.config) v.stamp (block_of self.now block).value) }
        // a block that was never written is zeros, and none was written more often than there were requests
        ensures unwritten { (block_of self.now block).time ≡ 0
            → (block_of self.now block).value ≡ zeros (setting self.now.device.config) }
        ensures time { (block_of self.now block).time ≤ self.now.served }
    {
        self.device.held(node, block)
    }

    /// Writes and flushes the greeting. It takes no memory.
    pub fn greet<K: Sink>(&self, sink: &mut K) -> Result<(), SessionEnd>
        ensures whole { OnOk result (Adds (K.taken sink.old) (K.taken sink.new)
            (greeting (self.now.device.config.size * self.now.device.config.blocks))) }
        ensures flushed { OnOk result (AllFlushed (K.taken sink.new) (K.flushed sink.new)) }
        ensures prefix { TakesPrefix (K.taken sink.old) (K.taken sink.new)
            (greeting (self.now.device.config.size * self.now.device.config.blocks)) }
        ensures end { IfErr result (λ end. end ≡ SessionEnd.WriteFault) }
        ensures cause { OnErr result (Rose K.last (K.faults sink.old) (K.faults sink.new)) }
        ensures calm { OnOk result (K.faults sink.new ≡ K.faults sink.old) }
    {
        let config = self.device.config();
        let size = u64::from(config.size()) * u64::from(config.blocks());
        write_or_end(sink, &greeting(size))
    }

    /// Reads one request, does what it asks, and writes and flushes its whole reply before it returns. Nothing is done before all of
    /// the request was read; so a write whose data are cut changes nothing.
    pub fn serve_one<S: Source, K: Sink>(
        self,
        alloc: Global,
        source: &mut S,
        sink: &mut K,
    ) -> Result<(Server, Served), Stopped>
        ensures step { HasStepped self (given_back result) (S.left source.old) (S.left source.new)
            (K.taken sink.old) (K.taken sink.new) (outcome result) }
        ensures flushed { outcome result ≡ Ok Served.Next
            → AllFlushed (K.taken sink.new) (K.flushed sink.new) }
        ensures unwritten { outcome result ≢ Ok Served.Next
            → outcome result ≢ Err SessionEnd.WriteFault → sink.new ≡ sink.old }
        ensures read_fault { outcome result ≡ Err SessionEnd.ReadFault
            → Rose S.last (S.faults source.old) (S.faults source.new) }
        ensures write_fault { outcome result ≡ Err SessionEnd.WriteFault
            → Rose K.last (K.faults sink.old) (K.faults sink.new) }
        ensures calm_source { outcome result ≢ Err SessionEnd.ReadFault
            → S.faults source.new ≡ S.faults source.old }
        ensures calm_sink { outcome result ≢ Err SessionEnd.WriteFault
            → K.faults sink.new ≡ K.faults sink.old }
    {
        let size = device_len(self.device.config());
        match take_request(alloc, source, size, self.served, self.place) {
            Ok(Some(asked)) => self.answer(alloc, &asked, sink),
            Ok(None) => Ok((self, Served::Over)),
            Err(end) => Err(Stopped {
                end,
                server: Some(self),
            }),
        }
    }

    /// Does what a request asks, and writes its reply.
    fn answer<K: Sink>(
        self,
        alloc: Global,
        asked: &Asked,
        sink: &mut K,
    ) -> Result<(Server, Served), Stopped>
        requires asked { (bytes : List ℕ) × IsAsked (length (bytes_of self)) bytes asked.now }
        requires few { self.served < most_requests }
        ensures answered { (bytes : List ℕ) → IsAsked (length (bytes_of self)) bytes asked.now
            → HasCarriedOut bytes self (given_back result)
            (K.taken sink.old) (K.taken sink.new) (outcome result) }
        ensures flushed { outcome result ≡ Ok Served.Next
            → AllFlushed (K.taken sink.new) (K.flushed sink.new) }
        ensures unwritten { outcome result ≢ Ok Served.Next
            → outcome result ≢ Err SessionEnd.WriteFault → sink.new ≡ sink.old }
        ensures unread { outcome result ≢ Err SessionEnd.ReadFault }
        ensures write_fault { outcome result ≡ Err SessionEnd.WriteFault
            → Rose K.last (K.faults sink.old) (K.faults sink.new) }
        ensures calm { outcome result ≢ Err SessionEnd.WriteFault
            → K.faults sink.new ≡ K.faults sink.old }
    {
        let Server {
            device,
            served,
            place,
        } = self;
        let (device, reply) = carry_out(alloc, device, asked, served)?;
        let server = Server {
            device,
            served: served + 1,
            place: place + asked.len(),
        };
        match write_or_end(sink, &reply) {
            Ok(()) => Ok((server, Served::Next)),
            Err(end) => Err(Stopped {
                end,
                server: Some(server),
            }),
        }
    }

    /// Serves requests until the session ends.
    pub fn serve<S: Source, K: Sink>(
        self,
        alloc: Global,
        source: &mut S,
        sink: &mut K,
    ) -> Result<Server, Stopped>
        ensures session { IsSession [] (bytes_of self) self.served self.place (closing result)
            (S.left source.old) (S.left source.new) (K.taken sink.old) (K.taken sink.new) }
        ensures given { IfErr result (λ stopped.
            stopped.end ≢ SessionEnd.NoMemory → IsSome stopped.server) }
        ensures flushed { closing result ≢ Err SessionEnd.WriteFault
            → AllFlushed (K.taken sink.old) (K.flushed sink.old)
            → AllFlushed (K.taken sink.new) (K.flushed sink.new) }
        // faults
        ensures read_fault { closing result ≡ Err SessionEnd.ReadFault
            → Rose S.last (S.faults source.old) (S.faults source.new) }
        ensures write_fault { closing result ≡ Err SessionEnd.WriteFault
            → Rose K.last (K.faults sink.old) (K.faults sink.new) }
        ensures calm_source { closing result ≢ Err SessionEnd.ReadFault
            → S.faults source.new ≡ S.faults source.old }
        ensures calm_sink { closing result ≢ Err SessionEnd.WriteFault
            → K.faults sink.new ≡ K.faults sink.old }
        // where there is memory, an input that meets no fault is served to its end, and that is how it says
        ensures complete { (input : List ℕ) (end : Result Served SessionEnd)
            → S.left source.old ≡ Some input → EndsSo end self.served self.place input
            → (Rose S.last (S.faults source.old) (S.faults source.new) → ⊥)
            → (Rose K.last (K.faults sink.old) (K.faults sink.new) → ⊥)
            → (closing result ≡ end) ⊎ (closing result ≡ Err SessionEnd.NoMemory) }
    {
        let mut server = self;
        loop {
            match server.serve_one(alloc, source, sink)? {
                (next, Served::Next) => server = next,
                (next, Served::Over) => return Ok(next),
            }
        }
    }
}

/// Writes and flushes a text.
fn write_or_end<K: Sink>(sink: &mut K, text: &[u8]) -> Result<(), SessionEnd>
    ensures whole { OnOk result (Adds (K.taken sink.old) (K.taken sink.new) text.now) }
    ensures flushed { OnOk result (AllFlushed (K.taken sink.new) (K.flushed sink.new)) }
    ensures prefix { TakesPrefix (K.taken sink.old) (K.taken sink.new) text.now }
    ensures end { IfErr result (λ end. end ≡ SessionEnd.WriteFault) }
    ensures cause { OnErr result (Rose K.last (K.faults sink.old) (K.faults sink.new)) }
    ensures calm { OnOk result (K.faults sink.new ≡ K.faults sink.old) }
{
    match write_all(sink, text) {
        Ok(()) => Ok(()),
        Err(_) => Err(SessionEnd::WriteFault),
    }
}
