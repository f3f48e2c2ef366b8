//! The world: its replicas and the messages that were sent.
ghost use Rattle.std.specs.Prelude.{◌≡◌, ◌+◌, ◌<◌, ◌≤◌, length, map, slice_index_or};
ghost use Rattle.std.specs.Prelude.{OnErr, OnOk, IfOk, IfErr, IsTrue, ◌↔◌};
ghost use Rattle.warm_stamps.specs.declared.TheConstants.{MAX_REPLICAS};
ghost use Rattle.warm_world.specs.Lists.{IsNumber, Pairwise, index_of_number};
ghost use Rattle.warm_world.specs.States.{opened_over, opening};
ghost use Rattle.warm_pool.specs.declared.fault.PoolFault.TheVariants.{Fault};
ghost use Rattle.warm_gossip.specs.declared.fault.NodeFault.TheVariants.{Pool};
ghost use Rattle.warm_world.specs.Opening.{AreFew, AreFitting, AreSized, FailsAtIndex, FinishFails};
ghost use Rattle.warm_world.specs.Opening.{NewWorldRefused, StopsInOrder};
ghost use Rattle.warm_world.specs.Effects.{IsNamed, IsMissing};
ghost use Rattle.warm_world.specs.Replicas.{answered};
ghost use Rattle.warm_world.specs.Views.{listed, world_view, replica_view};
ghost use Rattle.warm_world.specs.Views.{AreSameBut, IsAtRest, IsSettledBefore};
ghost use Rattle.warm_world.specs.WorldStands.{CountsFailure, ReplicaStands, view_shape, WorldStands};
ghost use Rattle.warm_world.specs.WorldStands.{Steps, FollowsModel};

use crate::event::{Answer, BadWorld, Event, WorldFault, answer_of};
use crate::pool_events::ask;
use crate::replica::WorldReplica;
use crate::setup::Setup;
use std::alloc::{AllocError, Global};
use warm_devices::PageDevice;
use warm_gossip::NodeFault;
use warm_pool::{Slot, all_sized};
use warm_stamps::{PageId, ReplicaId};

/// Replicas, their workers' buffers, and every message that was sent.
///
/// Contracts describe a world by the model states that it stands for (`WorldStands`): lists of all
/// references that reached each replica, that are pending in each buffer, and that each stored
/// message brings, and the view of each replica's pool.
///
/// A message is stored for as long as the world lives, so memory use grows with the messages sent.
pub struct World<D: PageDevice> {
    pub(crate) alloc: Global,
    pub(crate) replicas: Vec<WorldReplica<D>>,
    pub(crate) messages: Vec<Vec<u8>>,
}

// Written by hand, so that an owner makes one call on each exit path (see `History`).
impl<D: PageDevice> Drop for World<D> {
    fn drop(mut self) {
        let Self {
            alloc: _,
            replicas,
            messages,
        } = self;
        drop(replicas);
        drop(messages);
    }
}

fn is_number(number: u64, count: usize) -> bool
    ensures { IsTrue result ↔ IsNumber number count }
{
    0 < number && number <= count as u64
}

/// The index of the item of a number, since numbers count from 1.
pub(crate) fn index_of_number(number: u64) -> usize
    requires { 0 < number }
    ensures { result ≡ index_of_number number }
{
    number as usize - 1
}

/// Whether each device of each list has pages of this size: what [`World::new`] requires of its
/// devices. Allocation-free.
pub fn are_sized<D: PageDevice>(devices: &[Vec<D>], page_size: usize) -> bool
    ensures { IsTrue result ↔ AreSized page_size (listed D.state devices.now) }
{
    for list in devices {
        if !all_sized(list, page_size) {
            return false;
        }
    }
    true
}

// A replica over each list of devices, numbered from 1. Their pages have the setup's size.
fn replicas_over<D: PageDevice>(
    alloc: Global,
    setup: Setup,
    devices: Vec<Vec<D>>,
) -> Result<Vec<WorldReplica<D>>, AllocError>
    requires few { AreFew (listed D.state devices.items) }
    requires many { length devices.items ≤ MAX_REPLICAS }
    ensures stand { IfOk result (λ made. Pairwise (ReplicaStands setup.buffer)
        (map replica_view made.items)
        (map (opened_over setup) (listed D.state devices.items))) }
{
    let mut replicas = Vec::with_capacity(alloc, devices.len())?;
    for list in devices {
        let Ok(id) = ReplicaId::new(replicas.len() as u16 + 1) else {
            unreachable!()
        };
        let replica = WorldReplica::new(alloc, id, setup, list)?;
        replicas.push_reserved(replica);
    }
    Ok(replicas)
}

impl<D: PageDevice> World<D> {
    /// A world in which nothing has happened, with a replica over each list of devices: no replica
    /// has a reference or a resident page, no reference is pending, and no message was sent. The
    /// memory of every buffer and pool is allocated here.
    ///
    /// Each list has at most [`warm_pool::MAX_DEVICES`] devices.
    ///
    /// # Errors
    /// `DevicesDiffer`: the number of lists is not the number of replicas. `SizeDiffers`: the page
    /// size of a device is not that of the setup. `Memory`: an allocation failed. All devices are
    /// dropped.
    pub fn new(alloc: Global, setup: Setup, devices: Vec<Vec<D>>) -> Result<World<D>, BadWorld>
        requires few { AreFew (listed D.state devices.items) }
        ensures stands { IfOk result (λ world. WorldStands (world_view world)
            (opening setup (listed D.state devices.items))) }
        ensures fitting { OnOk result (AreFitting setup (listed D.state devices.items)) }
        ensures refused { IfErr result (λ why.
            NewWorldRefused setup (listed D.state devices.items) why) }
    {
        if devices.len() != setup.replicas() as usize {
            return Err(BadWorld::DevicesDiffer);
        }
        if !are_sized(&devices, setup.page_size() as usize) {
            return Err(BadWorld::SizeDiffers);
        }
        let replicas = replicas_over(alloc, setup, devices)?;
        Ok(World {
            alloc,
            replicas,
            messages: Vec::new(alloc),
        })
    }

    // The number of replicas.
    fn replica_count(&self) -> usize
        ensures { result ≡ length (view_shape (world_view self.now)).workers }
    {
        self.replicas.len()
    }

    // The number of workers of the replica of a number.
    fn worker_count(&self, i: u16) -> usize
        requires { IsNumber i (length (view_shape (world_view self.now)).workers) }
        ensures { result
            ≡ slice_index_or (view_shape (world_view self.now)).workers (index_of_number i) 0 }
    {
        self.replicas[index_of_number(i as u64)].buffers.len()
    }

    // The number of messages sent.
    fn message_count(&self) -> usize
        ensures { result ≡ (view_shape (world_view self.now)).messages }
    {
        self.messages.len()
    }

    // Checks that everything that an event names exists.
    fn check(&self, event: &Event) -> Result<(), WorldFault>
        ensures named { OnOk result (IsNamed (view_shape (world_view self.now)) event.now) }
        ensures missing { IfErr result (λ fault.
            IsMissing (view_shape (world_view self.now)) event.now fault) }
    {
        let i = event.replica();
        if !is_number(i as u64, self.replica_count()) {
            return Err(WorldFault::NoSuchReplica);
        }
        if let Some(w) = event.worker() {
            if !is_number(w as u64, self.worker_count(i)) {
                return Err(WorldFault::NoSuchWorker);
            }
        }
        if let Some(k) = event.message() {
            if !is_number(k, self.message_count()) {
                return Err(WorldFault::NoSuchFrame);
            }
        }
        Ok(())
    }

    fn refer(&mut self, i: u16, w: u16, page: PageId, time: u64) -> Result<Answer, NodeFault>
        requires named { IsNamed (view_shape (world_view self.old)) (Event.Refer i w page time) }
        ensures { Steps (world_view self.old) (Event.Refer i w page time) (answered result)
            (world_view self.new) }
    {
        let worker = index_of_number(w as u64);
        self.replicas[index_of_number(i as u64)].refer(worker, page, time)?;
        Ok(Answer::Done)
    }

    fn flush(&mut self, i: u16, w: u16) -> Result<Answer, NodeFault>
        requires named { IsNamed (view_shape (world_view self.old)) (Event.Flush i w) }
        ensures { Steps (world_view self.old) (Event.Flush i w) (answered result)
            (world_view self.new) }
    {
        let worker = index_of_number(w as u64);
        self.replicas[index_of_number(i as u64)].flush(worker)?;
        Ok(Answer::Done)
    }

    fn restart(&mut self, i: u16) -> Result<Answer, NodeFault>
        requires named { IsNamed (view_shape (world_view self.old)) (Event.Restart i) }
        ensures { Steps (world_view self.old) (Event.Restart i) (answered result)
            (world_view self.new) }
    {
        self.replicas[index_of_number(i as u64)].restart()?;
        Ok(Answer::Done)
    }

    fn pin(&mut self, i: u16, page: PageId) -> Result<Answer, NodeFault>
        requires named { IsNamed (view_shape (world_view self.old)) (Event.Pin i page) }
        ensures { Steps (world_view self.old) (Event.Pin i page) (answered result)
            (world_view self.new) }
    {
        ask(
            &mut self.replicas[index_of_number(i as u64)].node,
            Event::Pin(i, page),
        )
    }

    fn unpin(&mut self, i: u16, slot: Slot) -> Result<Answer, NodeFault>
        requires named { IsNamed (view_shape (world_view self.old)) (Event.Unpin i slot) }
        ensures { Steps (world_view self.old) (Event.Unpin i slot) (answered result)
            (world_view self.new) }
    {
        ask(
            &mut self.replicas[index_of_number(i as u64)].node,
            Event::Unpin(i, slot),
        )
    }

    // Answers an event of which everything that it names exists, or returns why a node refuses it.
    // Out of line: taken into `step`, it would clear there, for each reference and each pin, what
    // sends, deliveries and other events hold.
    #[inline(never)]
    fn answer(&mut self, event: Event) -> Result<Answer, NodeFault>
        requires named { IsNamed (view_shape (world_view self.old)) event }
        ensures { Steps (world_view self.old) event (answered result) (world_view self.new) }
    {
        match event {
            Event::Refer(i, w, page, time) => self.refer(i, w, page, time),
            Event::Flush(i, w) => self.flush(i, w),
            Event::Send(i, bucket, after) => self.send(i, bucket, after),
            Event::Offer(i) => self.offer(i),
            Event::Deliver(j, k) => self.deliver(j, k),
            Event::Restart(i) => self.restart(i),
            Event::Horizon(i, time) => Ok(self.horizon(i, time)),
            Event::Show(i) => self.show(i),
            pool_event => {
                let i = pool_event.replica();
                ask(
                    &mut self.replicas[index_of_number(i as u64)].node,
                    pool_event,
                )
            }
        }
    }

    /// Answers one event. For every model state that the world stands for, `Next` leads from it, by
    /// the event and its answer, to one that the world stands for afterwards. A refused event
    /// changes nothing but counts of devices' failures.
    pub fn step(&mut self, event: Event) -> Answer
        ensures { Steps (world_view self.old) event result (world_view self.new) }
    {
        if let Err(fault) = self.check(&event) {
            return Answer::Refused(fault);
        }
        match event {
            Event::Refer(i, w, page, time) => answer_of(self.refer(i, w, page, time)),
            Event::Pin(i, page) => answer_of(self.pin(i, page)),
            Event::Unpin(i, slot) => answer_of(self.unpin(i, slot)),
            event => answer_of(self.answer(event)),
        }
    }

    /// Answers a list of events, one after another. For every model state that the world stands
    /// for, `Run` leads from it, by the events and their answers, to one that the world stands for
    /// afterwards. In words:
    ///
    /// After any list of references, buffer flushes, gossip sends, losses, repeats, reorderings,
    /// horizons and restarts, each replica's history is exactly the two latest stamps, not older
    /// than its horizon, of every page among all references that reached it, directly or through
    /// others, since its restart; replicas that keep the same references agree on history, ranking
    /// and warm-up list, and each victim is an unpinned resident page of greatest backward
    /// 2-distance.
    ///
    /// The memory for the answers is allocated before the first event. If that fails, the events
    /// are given back, and nothing has happened.
    pub fn run(&mut self, events: Vec<Event>) -> Result<Vec<Answer>, Vec<Event>>
        ensures ran { IfOk result (λ answers.
            FollowsModel (world_view self.old) events.items answers.items (world_view self.new)) }
        ensures refused { IfErr result (λ back. (back ≡ events) × (self.new ≡ self.old)) }
    {
        let Ok(mut answers) = Vec::with_capacity(self.alloc, events.len()) else {
            return Err(events);
        };
        for event in events {
            let answer = self.step(event);
            answers.push_reserved(answer);
        }
        Ok(answers)
    }

    /// Writes back each dirty page to its device, and flushes the unflushed devices, one replica
    /// after the other. Allocation-free.
    ///
    /// # Errors
    /// `Pool(Fault)` at the first write or flush that fails. Of the world's view, and of each model
    /// state that it stands for, only one count of failures has changed. The pools of replicas
    /// before the one that fails are settled, those after it are unchanged.
    pub fn finish(&mut self) -> Result<(), NodeFault>
        ensures same { OnOk result (world_view self.new ≡ world_view self.old) }
        ensures settled { OnOk result (IsAtRest self.new) }
        ensures refused { IfErr result (λ why. FinishFails (world_view self.old) why
            (world_view self.new)) }
        ensures stops { OnErr result (StopsInOrder self.old self.new) }
        ensures stands { OnErr result (CountsFailure (world_view self.old)
            (world_view self.new)) }
    {
        for k in 0..self.replicas.len() {
            self.write_back(k)?;
        }
        Ok(())
    }

    // Writes back the pages of the replica at an index.
    fn write_back(&mut self, k: usize) -> Result<(), NodeFault>
        requires there { k < length self.old.replicas.items }
        ensures same { OnOk result (world_view self.new ≡ world_view self.old) }
        ensures settled { IsSettledBefore k self.old
            → OnOk result (IsSettledBefore (k + 1) self.new) }
        ensures refused { IfErr result (λ why. (why ≡ Pool Fault)
            × FailsAtIndex k (world_view self.old) (world_view self.new)) }
        ensures others { AreSameBut k self.old self.new }
        ensures many { length self.new.replicas.items ≡ length self.old.replicas.items }
    {
        self.replicas[k].node.write_back()
    }
}
