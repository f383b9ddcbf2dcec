//! The simulation blocks that were entered.
ghost use Rattle.std.specs.Prelude.{◌≡◌, ◌<◌, ◌++◌, ◌∷◌, [], List, IfOk, IfSome, is_some, length, map};
ghost use Rattle.sim_code.specs.Machine.{Frames};
ghost use Rattle.sim_code.specs.Outcome.{Simulation, World};
ghost use Rattle.sim_code.specs.Simulations.{begun, is_simulated as is_simulated_of, joined, located as located_of, with_place, with_process};
ghost use Rattle.simset.specs.Instances.{linkage_of};
ghost use Rattle.frame_arena.specs.declared.frames.Frame.{Frame};
ghost use Rattle.frame_arena.specs.Frames.{Leads};
ghost use Rattle.object_machine.specs.Enrolling.{AllBelow, Rises, stamps};
ghost use Rattle.object_machine.specs.Simulating.{AllEarlier, IsSimulated, Simulating, blocks_of, simulation_of};

use notice_tree::NoticeTree;
use notices::NoticeSet;
use sim_base::Memory;
use sim_values::FrameRef;
use simulation::Sim;
use std::alloc::Global;

/// A simulation block.
#[derive(Drop)]
pub struct Simulated {
    /// Its instance.
    pub block: FrameRef,
    /// The objects of its processes, in the order in which they were made. The number of a process is its place among these, from 1 on; 0 is
    /// that of the main program.
    pub processes: Vec<FrameRef>,
    /// Whether each of them is terminated.
    pub ended: Vec<bool>,
    /// Its event notices.
    pub sim: Sim<NoticeTree>,
}

// The place of the block with a number among these, whose numbers rise, if it is there.
fn place_of_block(simulations: &[Simulated], stamp: u64) -> Option<usize>
    ensures within { IfSome result (λ x. x < length simulations.now) }
    ensures is { Rises (stamps (blocks_of simulations.now)) → result ≡ linkage_of (stamps (blocks_of simulations.now)) stamp }
{
    let mut low = 0;
    let mut high = simulations.len();
    while low < high {
        let middle = low + (high - low) / 2;
        let there = simulations[middle].block.stamp;
        if there == stamp {
            return Some(middle);
        }
        if there < stamp {
            low = middle + 1;
        } else {
            high = middle;
        }
    }
    None
}

/// The place of the simulation of a block among all.
pub fn located(simulations: &[Simulated], stamp: u64) -> Option<usize>
    ensures within { IfSome result (λ x. x < length simulations.now) }
    ensures is { Rises (stamps (blocks_of simulations.now)) → with_place (map simulation_of simulations.now) result ≡ located_of (map simulation_of simulations.now) stamp }
{
    place_of_block(simulations, stamp)
}

/// Whether an instance is a simulation block.
pub fn is_simulated(simulations: &[Simulated], stamp: u64) -> bool
    ensures is { Rises (stamps (blocks_of simulations.now)) → result ≡ is_simulated_of (map simulation_of simulations.now) stamp }
{
    place_of_block(simulations, stamp).is_some()
}

// A process is made in a block.
fn add_process(simulated: &mut Simulated, object: FrameRef) -> Result<(), Memory>
    ensures is { IfOk result (λ u. simulation_of simulated.new ≡ with_process object.stamp (simulation_of simulated.old)) }
    ensures block { simulated.new.block ≡ simulated.old.block }
    ensures keeps { IfOk result (λ u. (frames : List Frame) (m : Frames) → IsSimulated frames m simulated.old → AllBelow object.stamp (stamps simulated.old.processes.items) → simulated.old.block.stamp < object.stamp → Leads frames m object →
        IsSimulated frames m simulated.new) }
{
    let count = simulated.processes.len();
    simulated.sim.reserve(count + 2)?;
    let Ok(()) = simulated.processes.push(object) else {
        return Err(Memory);
    };
    let Ok(()) = simulated.ended.push(false) else {
        return Err(Memory);
    };
    Ok(())
}

/// An object is made, in the simulation of a block if it is a process.
pub fn join(
    simulations: &mut Vec<Simulated>,
    is_process: bool,
    block: u64,
    object: FrameRef,
) -> Result<(), Memory>
    ensures row { IfOk result (λ u. (frames : List Frame) (m : Frames) (o : World) → Simulating frames m simulations.old.items o.simulations → AllEarlier object.stamp o.simulations → Leads frames m object →
        Simulating frames m simulations.new.items (joined is_process block object.stamp o).simulations) }
{
    if !is_process {
        return Ok(());
    }
    let Some(place) = located(simulations, block) else {
        return Ok(());
    };
    add_process(&mut simulations[place], object)
}

/// A simulation block is entered: its main program has the only notice.
pub fn begin_simulation(
    alloc: Global,
    simulations: &mut Vec<Simulated>,
    block: FrameRef,
) -> Result<(), Memory>
    ensures row { IfOk result (λ u. (frames : List Frame) (m : Frames) (o : List Simulation) → Simulating frames m simulations.old.items o → AllEarlier block.stamp o → Leads frames m block →
        Simulating frames m simulations.new.items (o ++ begun block.stamp ∷ [])) }
{
    let mut notices = NoticeTree::new(alloc);
    notices.reserve(1)?;
    let simulated = Simulated {
        block,
        processes: Vec::new(alloc),
        ended: Vec::new(alloc),
        sim: Sim::new(notices),
    };
    let Ok(()) = simulations.push(simulated) else {
        return Err(Memory);
    };
    Ok(())
}
