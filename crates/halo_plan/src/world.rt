//! The world of a plan.

ghost use Rattle.std.specs.Prelude.{◌≡◌, ◌<◌, ◌+◌, Err, IfErr, IfOk, IsOk, IsOkUnless, length, take};
ghost use Rattle.init_match.specs.declared.answers.InitFault.TheVariants.{NoMemory};
ghost use Rattle.halo_plan.specs.Edges.{edges};
ghost use Rattle.halo_plan.specs.Worlds.{HasCalls, IsWorldOf};

use crate::{Edge, HaloPlan};
use init_match::{InitFault, World};
use std::alloc::{AllocError, Global};

/// Whether an initialisation was accepted that nothing but want of memory refuses.
fn accepted(answer: Result<u32, InitFault>) -> Result<(), AllocError>
    requires { IsOkUnless answer NoMemory }
    ensures ok { IfOk result (λ _. IsOk answer) }
    ensures err { IfErr result (λ _. answer ≡ Err NoMemory) }
{
    match answer {
        Ok(_) => Ok(()),
        Err(InitFault::NoMemory) => Err(AllocError),
        Err(_) => unreachable!(),
    }
}

impl HaloPlan {
    /// Initialises the send and the receive of edge `e` behind those of the edges before it.
    fn join(&self, e: u32, world: &mut World) -> Result<(), AllocError>
        requires edge { e < length (edges self.now) }
        requires calls { HasCalls self.now (take e (edges self.now)) world.old }
        ensures { IfOk result (λ _. HasCalls self.now (take (e + 1) (edges self.now)) world.new) }
    {
        let cut = self.geometry();
        // The length of a message is limited, for the proof.
        let _elements = self.message().elements();
        let Edge { from, to, tag, .. } = self.edge(e);
        let sent = world.psend_init(from, to, tag, 0, cut.send_parts(), cut.send_bytes());
        accepted(sent)?;
        let received = world.precv_init(from, to, tag, 0, cut.recv_parts(), cut.recv_bytes());
        accepted(received)
    }

    /// A world of the plan's ranks in which each edge is a pair: its send and its receive are initialised in
    /// communicator 0 (MPI 4.0, 4.2.1), edge after edge, so that pair `e` of the world is edge `e`. The error is want
    /// of memory.
    pub fn world(&self, alloc: Global) -> Result<World, AllocError>
        ensures world { IfOk result (λ world. IsWorldOf self.now world) }
    {
        let cut = self.geometry();
        let mut world = World::new(alloc, self.ranks(), cut.grain(), cut.depth()).unwrap();
        for e in 0..self.edge_count() {
            self.join(e, &mut world)?;
        }
        Ok(world)
    }
}
