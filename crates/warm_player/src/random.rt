//! Schedules drawn at random.
ghost use Rattle.std.specs.Prelude.{◌≡◌, IfErr};
ghost use Rattle.warm_random.specs.Drawing.{schedule_text};
ghost use Rattle.warm_player.specs.Answers.{Prints};

use std::io::Write;
use warm_random::write_schedule;
use warm_world::{PlayFault, Setup};

/// Writes the schedule of `events` lines that the seed gives for worlds of this setup, and flushes
/// the writer. The same seed, count and setup give the same bytes; no events give none. It is
/// allocation-free.
///
/// The only error is [`PlayFault::WriteFault`], if the writer failed. It is unspecified how much
/// was written before.
pub fn random_schedule<W: Write>(
    writer: &mut W,
    seed: u64,
    events: u32,
    setup: &Setup,
) -> Result<(), PlayFault>
    ensures written { Prints result (W.contents writer.old) (W.contents writer.new)
        (schedule_text seed events setup.now.replicas setup.now.workers) }
    ensures fault { IfErr result (λ fault. fault ≡ PlayFault.WriteFault) }
{
    let setup = *setup;
    // Errors are returned by `?`, as in `src/player.rt`.
    write_schedule(writer, seed, events, setup.replicas(), setup.workers()).map_err(
        |_| PlayFault::WriteFault,
    )?;
    writer.flush().map_err(|_| PlayFault::WriteFault)?;
    Ok(())
}
