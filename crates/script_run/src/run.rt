//! Running a script.

ghost use Rattle.std.specs.Prelude.{◌≡◌, ◌≢◌, ◌++◌, ◌∷◌, [], length, IfOk, OnOk, Err, None};
ghost use Rattle.script_run.specs.Run.{is_no_memory, world_answer, after_world, joined, with_request, init_answer_of, after_init_of, known_as, known_text, after_known, call_text, after_call, answers_from, answers_of};
ghost use Rattle.script_run.specs.State.{first_state, slot_of, HasSlots};
ghost use Rattle.script_run.specs.Running.{StandsFor, Tells, GoesOn};
ghost use Rattle.init_match.specs.declared.answers.InitFault.TheVariants.{NoMemory};

use crate::names::Names;
use crate::pairs::{NamedPair, answer_at};
use crate::report::report;
use crate::requests::{Request, match_at, name_at};
use crate::texts;
use init_match::{InitFault, World};
use part_api::Side;
use script_text::{Action, Call, Init, Limits, Script};
use std::alloc::{AllocError, Global};

/// What a script has made so far.
#[derive(Drop)]
pub(crate) struct Run<'a> {
    world: World,
    names: Names<'a>,
    pub(crate) requests: Vec<Request<'a>>,
    pub(crate) pairs: Vec<NamedPair<'a>>,
}

/// Asks the world for an initialisation.
fn ask(world: &mut World, side: Side, init: &Init) -> Result<u32, InitFault>
    ensures answer { result ≢ Err NoMemory → result ≡ world_answer world.old side init.now }
    ensures world { world.new ≡ after_world world.old side init.now result }
{
    let Init {
        from,
        to,
        tag,
        comm,
        parts,
        bytes,
        ..
    } = init;
    match side {
        Side::SendSide => world.psend_init(*from, *to, *tag, *comm, *parts, *bytes),
        Side::RecvSide => world.precv_init(*from, *to, *tag, *comm, *parts, *bytes),
    }
}

/// Whether memory ran out.
fn is_no_memory(answer: &Result<u32, InitFault>) -> bool
    ensures { result ≡ is_no_memory answer.now }
{
    matches!(answer, Err(InitFault::NoMemory))
}

/// Asks the world for an initialisation, where want of memory is no answer.
fn asked(world: &mut World, side: Side, init: &Init) -> Result<Result<u32, InitFault>, AllocError>
    ensures { IfOk result (λ answer. (answer ≡ world_answer world.old side init.now)
        × (world.new ≡ after_world world.old side init.now answer)) }
{
    let answer = ask(world, side, init);
    if is_no_memory(&answer) {
        return Err(AllocError);
    }
    Ok(answer)
}

/// The world of these limits.
fn new_world(alloc: Global, limits: &Limits) -> World
    ensures { result ≡ record {
      ranks = limits.now.ranks;
      grain = limits.now.grain;
      depth = limits.now.depth;
      calls = [];
    } }
{
    let made = World::new(alloc, limits.ranks(), limits.grain(), limits.depth());
    let Ok(world) = made else {
        unreachable!();
    };
    world
}

impl<'a> Run<'a> {
    /// Before the first call.
    fn new(alloc: Global, limits: &Limits) -> Run<'a>
        ensures { StandsFor result (first_state limits.now) }
    {
        Run {
            world: new_world(alloc, limits),
            names: Names::new(alloc),
            requests: Vec::new(alloc),
            pairs: Vec::new(alloc),
        }
    }

    /// Begins the pair that the last initialisation completed, if it completed one.
    fn begin(&mut self, alloc: Global) -> Result<(), AllocError>
        ensures { (st : _) → StandsFor self.old st → OnOk result (StandsFor self.new (joined st)) }
    {
        let begun = self.pairs.len();
        if begun >= self.world.pair_count() as usize {
            return Ok(());
        }
        let n = begun as u32;
        let matched = self.world.pair(n);
        let send = name_at(&self.requests, matched.send_slot);
        let recv = name_at(&self.requests, matched.recv_slot);
        let pair = NamedPair::new(alloc, send, recv, matched.geometry)?;
        self.pairs.push(pair)?;
        match_at(&mut self.requests, n, matched.send_slot);
        match_at(&mut self.requests, n, matched.recv_slot);
        Ok(())
    }

    /// Makes the request of an initialisation that was accepted in this slot.
    fn accept(
        &mut self,
        alloc: Global,
        side: Side,
        name: &'a [u8],
        slot: u32,
    ) -> Result<(), AllocError>
        ensures { (st : _) → StandsFor self.old st → slot_of st.requests name.now ≡ None → slot ≡ length st.requests
            → OnOk result (StandsFor self.new (joined (with_request st name.now side))) }
    {
        self.names.add(name, slot)?;
        self.requests.push(Request::new(name, side))?;
        self.begin(alloc)
    }

    /// What `send` and `recv` answer.
    fn initialise(
        &mut self,
        alloc: Global,
        side: Side,
        init: &'a Init,
    ) -> Result<String, AllocError>
        ensures { Tells self.old self.new result (λ st. init_answer_of st side init.now)
            (λ st. after_init_of st side init.now) }
    {
        let name = init.name.as_slice();
        if self.names.slot(name).is_some() {
            return String::from_str(alloc, "refused NameTaken");
        }
        match asked(&mut self.world, side, init)? {
            Ok(slot) => {
                self.accept(alloc, side, name, slot)?;
                String::from_str(alloc, "ok")
            }
            Err(fault) => texts::fault(alloc, fault),
        }
    }

    /// What an action on the request of a name answers.
    fn act(&mut self, alloc: Global, name: &'a [u8], action: &Action) -> Result<String, AllocError>
        ensures { Tells self.old self.new result (λ st. known_text st (known_as st name.now) action.now)
            (λ st. after_known st (known_as st name.now) action.now) }
    {
        let Some(slot) = self.names.slot(name) else {
            return String::from_str(alloc, "refused NoRequest");
        };
        let Some(request) = self.requests.get(slot as usize) else {
            return String::from_str(alloc, "refused NoRequest");
        };
        let side = request.side();
        match request.pair() {
            None => texts::waiting(alloc, side, action),
            Some(n) => answer_at(alloc, &mut self.pairs, n, side, action),
        }
    }

    /// What a call answers.
    fn call(&mut self, alloc: Global, call: &'a Call) -> Result<String, AllocError>
        ensures { Tells self.old self.new result (λ st. call_text st call.now) (λ st. after_call st call.now) }
    {
        match call {
            Call::Send(init) => self.initialise(alloc, Side::SendSide, init),
            Call::Recv(init) => self.initialise(alloc, Side::RecvSide, init),
            Call::Request { name, action } => self.act(alloc, name.as_slice(), action),
        }
    }
}

/// Appends an answer and LF.
fn append_line(text: &mut Vec<u8>, answer: &[u8]) -> Result<(), AllocError>
    ensures { OnOk result (text.new.items ≡ text.old.items ++ answer.now ++ 10 ∷ []) }
{
    text.extend_from_slice(answer)?;
    text.push(b'\n')?;
    Ok(())
}

/// Runs calls, and appends what they answer.
fn run_calls<'a>(
    alloc: Global,
    run: &mut Run<'a>,
    calls: &'a [Call],
    text: &mut Vec<u8>,
) -> Result<(), AllocError>
    ensures { (st : _) → StandsFor run.old st → HasSlots st
        → OnOk result (GoesOn run.new text.new.items [] (text.old.items ++ answers_from st calls.now)) }
{
    for call in calls {
        let answer = run.call(alloc, call)?;
        append_line(text, answer.as_bytes())?;
    }
    Ok(())
}

/// Runs a script, and writes what its lines answer, each line ended by LF. The time grows with the script and its
/// answers, beside the making of the pairs: a name is found in a tree, and a request and a pair by its number.
pub fn run_script(alloc: Global, script: &Script) -> Result<Vec<u8>, AllocError>
    ensures { IfOk result (λ text. text.items ≡ answers_of script.now) }
{
    let mut run = Run::new(alloc, script.limits());
    let mut text = Vec::from_slice(alloc, b"ok\n")?;
    run_calls(alloc, &mut run, script.calls(), &mut text)?;
    report(alloc, run, &mut text)?;
    Ok(text)
}
