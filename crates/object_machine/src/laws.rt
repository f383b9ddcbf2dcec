//! What holds in each state of the machine. The law is a function that does nothing; its clause is the law.
ghost use Rattle.std.specs.Prelude.{List, Option, ℕ};
ghost use Rattle.sim_base.specs.declared.limits.Limits.{Limits};
ghost use Rattle.sim_code.specs.Machine.{Frames};
ghost use Rattle.sim_code.specs.Outcome.{World};
ghost use Rattle.frame_arena.specs.declared.slot.Slot.{Slot};
ghost use Rattle.frame_arena.specs.Free.{OneForOne};
ghost use Rattle.object_machine.specs.declared.machine.Activation as working;
ghost use Rattle.object_machine.specs.declared.machine.Registers.{Registers};
ghost use Rattle.object_machine.specs.declared.machine.Storage.{Storage};
ghost use Rattle.object_machine.specs.Standing.{Outside, Stands};

/// Where the machine stands for a world and a memory, as it does in each state that its steps come to, its frames are the instances that are
/// not given back, one for one, and so there are as many.
pub fn frames_are_the_live_instances()
    ensures { (l : Limits) (p : Storage) (r : Registers) (stack : List Slot) (below : List working.Activation) (before : Option (List ℕ)) (now : Outside) (o : World) (m : Frames) → Stands l p r stack below before now o m → OneForOne p.frames.items m }
{}
