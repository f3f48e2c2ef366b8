//! A schedule played by threads, over nodes.
ghost use Rattle.std.specs.Prelude.{◌≡◌, ◌≢◌, List, ℕ, length, map, Some, None};
ghost use Rattle.std.specs.Prelude.{OnOk, IfOk, IfErr, IfSome, Err};
ghost use Rattle.std.specs.Global.{Vec};
ghost use Rattle.std.specs.Io.KnownBytes.{Appends, IsAtEnd};
ghost use Rattle.warm_gossip.specs.State.{node_view};
ghost use Rattle.warm_world.specs.Nodes.{AreUsable, nodes_over};
ghost use Rattle.warm_world.specs.Views.{listed};
ghost use Rattle.warm_player.specs.Answers.{Prints};
ghost use Rattle.warm_player.specs.Text.{lines};
ghost use Rattle.warm_replica.specs.declared.job.Job.{Job};
ghost use Rattle.warm_world.specs.declared.play_fault.PlayFault.TheVariants.{BadDevices, BadLine, Memory};
ghost use Rattle.warm_world.specs.declared.play_fault.PlayFault.TheVariants.{WriteFault};
ghost use Rattle.warm_threads.specs.Asks.{asks, first_bad};
ghost use Rattle.warm_threads.specs.Plans.{AreJobsOf};
ghost use Rattle.warm_threads.specs.ReplicaTexts.{replica_text, replicas_text};
ghost use Rattle.warm_threads.specs.Plays.{PlayedInThreads};
ghost use Rattle.warm_threads.specs.Refusals.{ThreadsPlayRefused, StopsThreads, ThreadsRefused};
ghost use Rattle.warm_threads.specs.Works.{Went};

use crate::plan::jobs_in;
use crate::reading::read_whole;
use crate::runs::run_all;
use std::alloc::Global;
use std::io::{self, Read, Write};
use std::sync::Wait;
use std::thread::Threads;
use warm_devices::PageDevice;
use warm_gossip::Node;
use warm_history::History;
use warm_player::print_history;
use warm_replica::BatchMachine;
use warm_world::{PlayFault, Setup, are_usable, nodes_over};

// Prints the history of the replica of a number.
fn print_replica<W: Write>(writer: &mut W, number: u64, history: &History) -> io::Result<()>
    ensures { Prints result (W.contents writer.old) (W.contents writer.new)
        (replica_text number history.now) }
{
    writeln!(writer, "replica {number}")?;
    print_history(writer, history)
}

// The nodes of a setup over devices that are usable for it.
fn nodes_of<D: PageDevice>(
    alloc: Global,
    setup: Setup,
    devices: Vec<Vec<D>>,
) -> Result<Vec<Node<D>>, PlayFault>
    requires usable { AreUsable setup (listed D.state devices.items) }
    ensures opened { IfOk result (λ nodes. nodes.items
        ≡ nodes_over setup 1 (listed D.state devices.items)) }
    ensures count { IfOk result (λ nodes. length nodes.items ≡ setup.replicas) }
    ensures why { IfErr result (λ why. why ≡ Memory) }
{
    let nodes = nodes_over(alloc, setup, devices)?;
    Ok(nodes)
}

// The same over any devices. They are `BadDevices` if they are not one list for each replica, each
// of at most `MAX_DEVICES`, with pages of the setup's size.
fn checked_nodes<D: PageDevice>(
    alloc: Global,
    setup: Setup,
    devices: Vec<Vec<D>>,
) -> Result<Vec<Node<D>>, PlayFault>
    ensures opened { IfOk result (λ nodes. nodes.items
        ≡ nodes_over setup 1 (listed D.state devices.items)) }
    ensures count { IfOk result (λ nodes. length nodes.items ≡ setup.replicas) }
    ensures misfit { (AreUsable setup (listed D.state devices.items) → ⊥)
        → result ≡ Err BadDevices }
    ensures usable { OnOk result (AreUsable setup (listed D.state devices.items)) }
    ensures refused { IfErr result (λ why.
        ThreadsPlayRefused setup (listed D.state devices.items) why) }
{
    if !are_usable(setup, &devices) {
        return Err(PlayFault::BadDevices);
    }
    nodes_of(alloc, setup, devices)
}

// Prints `replica I` and what `show I` prints for each replica in turn, counted from 1, and flushes
// the writer. The only error is `WriteFault`. It is unspecified how much was written before.
fn print_replicas<D: PageDevice, W: Write>(
    writer: &mut W,
    nodes: &[Node<D>],
) -> Result<(), PlayFault>
    ensures printed { Prints result (W.contents writer.old) (W.contents writer.new)
        (replicas_text 1 (map node_view nodes.now)) }
    ensures why { IfErr result (λ why. why ≡ WriteFault) }
{
    let mut number = 1;
    for node in nodes {
        let Ok(()) = print_replica(writer, number, node.history()) else {
            return Err(PlayFault::WriteFault);
        };
        number += 1;
    }
    match writer.flush() {
        Ok(()) => Ok(()),
        Err(_) => Err(PlayFault::WriteFault),
    }
}

// Plays a schedule by threads, over these machines, one for each replica of the setup, and gives
// them back.
fn play_over<M: BatchMachine + Send + Drop, T: Threads + Wait + Sync, R: Read>(
    rt: &T,
    alloc: Global,
    reader: &mut R,
    setup: Setup,
    machines: Vec<M>,
) -> Result<Vec<M>, PlayFault>
    requires { length machines.items ≡ setup.replicas }
    ensures end { OnOk result (IsAtEnd (R.remaining reader.new)) }
    ensures good { OnOk result (IfSome (R.remaining reader.old)
        (λ text. first_bad setup (lines text) ≡ None)) }
    ensures bad { (number : ℕ) → result ≡ Err (BadLine number)
        → IfSome (R.remaining reader.old) (λ text. first_bad setup (lines text) ≡ Some number) }
    ensures stopped { IfErr result StopsThreads }
    ensures each { IfOk result (λ v. length v.items ≡ setup.replicas) }
    ensures went { IfOk result (λ v. (jobs : List (Vec Job))
        × IfSome (R.remaining reader.old) (λ text. AreJobsOf setup (asks setup (lines text)) jobs)
        × Went M.goes (map M.view machines.items) jobs (map M.view v.items)) }
{
    let text = read_whole(alloc, reader)?;
    let jobs = jobs_in(alloc, setup, &text)?;
    let machines = run_all(rt, alloc, machines, jobs)?;
    Ok(machines)
}

/// Plays a schedule by threads over the devices of each replica, and prints the final history of
/// each replica: `replica I` and what `show I` prints, for each in turn, counted from 1. The writer
/// is flushed.
///
/// The schedule is read whole, and may hold `ref` and `flush` lines of the setup's replicas and
/// workers; blank lines and comments are skipped. Each worker has a thread that carries out its own
/// lines in their order: a full buffer is flushed before a further reference, and each buffer is
/// flushed at the end. After all have ended, each replica sends every bucket whole to each other,
/// and then a Stop. After all have sent, each receives what was sent to it, until it has received a
/// Stop of each other replica or 1,000,000 items. Replicas do so in threads of their own if
/// these can be started. It may wait. A message is encoded once, and all its receivers share its
/// bytes: beside the histories, the sent messages take the memory of one encoded copy of each
/// history.
///
/// # Errors
/// - `BadDevices`: the devices are not one list for each replica, each of at most
///   [`warm_pool::MAX_DEVICES`], with pages of the setup's size. Nothing was read or written.
/// - `ReadFault`: the reader failed, or 2^40 reads did not reach the end.
/// - `BadLine` with the number of the first line of another kind. No thread was started.
/// - `Memory`: an allocation failed, including one of a worker, of a replica or of a channel.
/// - `NoThread`: a worker's thread could not be started, for an allocation failure or another
///   reason, or left a call unfinished; or a channel was closed, since its replica ended before all
///   was sent to it, and no replica has another fault.
/// - `WriteFault`: the writer failed.
///
/// Of the faults of the threads (`ReplicaRunFault`), `Memory` is returned as `Memory`, and
/// `NoThread` and `Closed` as `NoThread`. In each case all devices are dropped. Nothing was
/// written, except for `WriteFault`, after which it is unspecified how much was.
pub fn play_threads<D, T, R, W>(
    rt: &T,
    alloc: Global,
    reader: &mut R,
    writer: &mut W,
    setup: Setup,
    devices: Vec<Vec<D>>,
) -> Result<(), PlayFault>
where
    D: PageDevice + Send,
    T: Threads + Wait + Sync,
    R: Read,
    W: Write,
    ensures misfit { (AreUsable setup (listed D.state devices.items) → ⊥)
        → (result ≡ Err BadDevices)
        × (reader.new ≡ reader.old) × (writer.new ≡ writer.old) }
    ensures end { OnOk result (IsAtEnd (R.remaining reader.new)) }
    ensures good { OnOk result (IfSome (R.remaining reader.old)
        (λ text. first_bad setup (lines text) ≡ None)) }
    ensures bad { (number : ℕ) → result ≡ Err (BadLine number)
        → IfSome (R.remaining reader.old) (λ text. first_bad setup (lines text) ≡ Some number) }
    ensures refused { IfErr result (λ why.
        ThreadsRefused setup (listed D.state devices.items) why) }
    ensures unwritten { IfErr result (λ why. why ≢ WriteFault → writer.new ≡ writer.old) }
    ensures played { OnOk result (IfSome (R.remaining reader.old) (λ text. (out : List ℕ)
        × PlayedInThreads setup (listed D.state devices.items) text out
        × Appends (W.contents writer.old) (W.contents writer.new) out)) }
{
    let nodes = checked_nodes(alloc, setup, devices)?;
    let nodes = play_over(rt, alloc, reader, setup, nodes)?;
    print_replicas(writer, &nodes)
}
