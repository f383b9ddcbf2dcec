// The text of a generated program.
ghost use Rattle.std.specs.Prelude.{◌≡◌, ◌<◌, ◌≤◌, ◌^◌, ◌+◌, ◌++◌, length, IfOk, OnOk};
ghost use Rattle.std.specs.List.{flat_map, range_with_len};
ghost use Rattle.generated_program.specs.GeneratedProgram.{activation, generated_program, hold_time};

use itoa::Buffer;
use sim_base::Memory;
use std::alloc::{AllocError, Global};

const FIRST_LINES: &str = "simulation begin
integer done, total;
process class p(k); integer k;
begin
integer j;
for j := 1 step 1 until 3 do begin hold(k); total := total + time end;
done := done + 1
end;
";

const LAST_LINES: &str = "hold(100); outint(done, 8); outint(total, 8); outimage
end
";

/// The program of this many processes, which is no longer than a source may be.
pub fn generated_program(alloc: Global, processes: u32) -> Result<Vec<u8>, Memory>
    requires { processes ≤ 20000 }
    ensures text { IfOk result (λ text. text.items ≡ generated_program processes) }
    ensures fits { IfOk result (λ text. length text.items ≤ 2 ^ 20) }
{
    let mut text = Vec::from_slice(alloc, FIRST_LINES.as_bytes())?;
    put_activations(&mut text, processes)?;
    text.extend_from_slice(LAST_LINES.as_bytes())?;
    Ok(text)
}

// The lines that activate so many processes.
#[tactic(auto, using(crate::proofs::Activations::nothing_owed))]
fn put_activations(text: &mut Vec<u8>, processes: u32) -> Result<(), AllocError>
    requires { processes ≤ 20000 }
    ensures { OnOk result (text.new.items ≡ text.old.items ++ flat_map activation (range_with_len 1 processes)) }
{
    for before in 0..processes {
        put_activation(text, before + 1)?;
    }
    Ok(())
}

// The line that activates this process.
fn put_activation(text: &mut Vec<u8>, process: u32) -> Result<(), AllocError>
    requires { process ≤ 20000 }
    ensures { OnOk result (text.new.items ≡ text.old.items ++ activation process) }
{
    let mut buffer = Buffer::new();
    text.extend_from_slice(b"activate new p(")?;
    text.extend_from_slice(buffer.format(hold_time(process)).as_bytes())?;
    text.extend_from_slice(b");\n")
}

// How long this process holds at a time.
fn hold_time(process: u32) -> u32
    requires { process ≤ 20000 }
    ensures { result ≡ hold_time process }
{
    1 + (7 * process) % 10
}
