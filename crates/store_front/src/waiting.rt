//! The wait for a request.
ghost use Rattle.std.specs.Prelude.{◌≡◌, ◌≢◌, ◌≤◌, ◌<◌, None, Err, [], length, OnOk, OnErr, IfOk, IfErr, IfSome, IsErrOf};
ghost use Rattle.outside_io.specs.Causes.{Rose};
ghost use Rattle.nbd_front.specs.Sessions.{IsPart};
ghost use Rattle.store_front.specs.Refusals.{IsRefused};
ghost use Rattle.store_front.specs.Requests.{most_served, most_at_hand};
ghost use Rattle.store_front.specs.Sessions.{EndsWait};

use crate::blocks::device_len;
use crate::input::Input;
use crate::requests::{WRITE, error};
use crate::standing::{HEAD, Standing, at_front};
use nbd_front::SessionEnd;
use nbd_front::request::Request;
use outside_io::Source;
use quorum_rules::Config;

/// What has come while a session waited.
#[derive(Clone, Copy)]
pub enum Came {
    /// A whole request, at least.
    Requests,
    /// A write that is refused, without a part of its data.
    Refused(Request),
    /// Nothing more: the client leaves, or the input has ended.
    Nothing,
}

/// Reads until a whole request is at hand, or the head of a write that is refused: its data are not to be kept. The
/// input at hand begins at `place`.
pub(crate) fn has_next<S: Source>(
    config: &Config,
    input: &mut Input,
    source: &mut S,
    place: u64,
) -> Result<Came, SessionEnd>
    ensures waited { EndsWait config.now result place input.old input.new (S.left source.old)
        (S.left source.new) }
    ensures few { length input.old ≤ most_at_hand → OnOk result (length input.new ≤ most_at_hand) }
    ensures fault { IsErrOf result SessionEnd.ReadFault
        → Rose S.last (S.faults source.old) (S.faults source.new) }
    ensures calm { result ≢ Err SessionEnd.ReadFault → S.faults source.new ≡ S.faults source.old }
{
    loop {
        match at_front(input.at_hand()) {
            Standing::Whole(_) => return Ok(Came::Requests),
            Standing::Leave => return Ok(Came::Nothing),
            Standing::Wrong => return Err(SessionEnd::BadMagic { at: place }),
            Standing::Part => {}
        }
        if let Some(request) = refused_at(config, input.at_hand()) {
            return Ok(Came::Refused(request));
        }
        if !input.read_more(source)? {
            return at_end(input.at_hand(), place);
        }
    }
}

/// The write at the front of the input at hand that is refused, where not all of its data are there.
fn refused_at(config: &Config, at_hand: &[u8]) -> Option<Request>
    requires { IsPart at_hand.now }
    ensures some { IfSome result (IsRefused config.now at_hand.now) }
    ensures none { result ≡ None → length at_hand.now < most_served }
{
    if at_hand.len() < HEAD {
        return None;
    }
    let request = Request::of(&at_hand[4..HEAD]);
    if request.kind != WRITE || error(&request, device_len(config)) == 0 {
        return None;
    }
    Some(request)
}

/// How the session ends where the input ends with these bytes at hand, which begin at `place`.
fn at_end(at_hand: &[u8], place: u64) -> Result<Came, SessionEnd>
    ensures none { IfOk result (λ came. (came ≡ Came.Nothing) × (at_hand.now ≡ [])) }
    ensures cut { IfErr result (λ end. end ≡ SessionEnd.CutRequest place) }
    ensures rest { OnErr result (0 < length at_hand.now) }
{
    if at_hand.is_empty() {
        return Ok(Came::Nothing);
    }
    Err(SessionEnd::CutRequest { at: place })
}
