//! The requests of a script.

ghost use Rattle.std.specs.Prelude.{◌≡◌, ◌<◌, Some, slice_get, option_copied, option_map};
ghost use Rattle.script_run.specs.Run.{matched_at, name_at};

use part_api::Side;
use std::marker::Model;

/// A request: its name, its side, and the number of its pair once it is matched.
#[derive(Drop)]
pub(crate) struct Request<'a> {
    name: &'a [u8],
    side: Side,
    pair: Option<u32>,
}

impl<'a> Model for Request<'a> {
    ghost use Rattle.script_run.specs.State.{Known};

    ghost Value = { Known };

    ghost view = { λ r. record { name = r.name.now; side = r.side; pair = r.pair } };
}

impl<'a> Request<'a> {
    ghost use Rattle.std.specs.Prelude.{None};
    ghost use Rattle.script_run.specs.Run.{in_pair};
    ghost use Rattle.script_run.specs.State.{is_waiting};

    /// A request that isn't matched yet.
    pub(crate) fn new(name: &'a [u8], side: Side) -> Request<'a>
        ensures { result ≡ record { name = name.now; side = side; pair = None } }
    {
        Request {
            name,
            side,
            pair: None,
        }
    }

    /// Its name.
    pub(crate) fn name(&self) -> &'a [u8]
        ensures { result.now ≡ self.now.name }
    {
        self.name
    }

    /// Its side.
    pub(crate) fn side(&self) -> Side
        ensures { result ≡ self.now.side }
    {
        self.side
    }

    /// The number of its pair.
    pub(crate) fn pair(&self) -> Option<u32>
        ensures { result ≡ self.now.pair }
    {
        self.pair
    }

    /// Whether it waits for the other side.
    pub(crate) fn is_waiting(&self) -> bool
        ensures { result ≡ is_waiting self.now }
    {
        self.pair.is_none()
    }

    /// It is matched, as one side of this pair.
    fn join(&mut self, pair: u32)
        ensures { self.new ≡ in_pair pair self.old }
    {
        self.pair = Some(pair);
    }
}

/// The name of the request in a slot.
pub(crate) fn name_at<'a>(requests: &[Request<'a>], slot: u32) -> &'a [u8]
    ensures { result.now ≡ name_at requests.now slot }
{
    match requests.get(slot as usize) {
        Some(request) => request.name(),
        None => &[],
    }
}

/// The request in a slot is matched, as one side of this pair.
pub(crate) fn match_at(requests: &mut Vec<Request<'_>>, pair: u32, slot: u32)
    ensures { requests.new.items ≡ matched_at pair slot requests.old.items }
{
    let index = slot as usize;
    if index < requests.len() {
        requests[index].join(pair);
    }
}
