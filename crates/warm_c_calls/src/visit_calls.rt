//! The calls of an open handle on the visit that it has begun: what lets it into shards, and what
//! it has made then.
ghost use Rattle.std.specs.Prelude.{◌≡◌, None, Some, IfErr, OnOk};
ghost use Rattle.std.specs.Io.KnownBytes.{Appends};
ghost use Rattle.warm_dump.specs.Dumps.{dump_of};
ghost use Rattle.warm_visits.specs.VisitMessages.{final_message};
ghost use Rattle.warm_c_calls.specs.Calls.{SaveRefused};
ghost use Rattle.warm_c_calls.specs.Visits.{EntersIf, HandsOut, HandsOutNext, ListsCopy, SavesCopy};
ghost use Rattle.warm_c_calls.specs.Visits.{SaysKept, SaysResult, wanted_shard};

use crate::frame_calls::put_frame;
use crate::history_calls::{c_pages, put_pages};
use crate::open_node::OpenNode;
use crate::open_visit::OpenVisit;
use std::alloc::Global;
use std::io::Write;
use warm_c_base::{Descriptor, FileWriter, Refusal, WarmPage};
use warm_dump::write_dump;
use warm_history::History;
use warm_history::laws::prove_is_history;
use warm_rank::warm_list;

impl OpenVisit {
    /// The shard whose node is to be entered next; `None` while a message waits to be handed out.
    pub fn next(&self) -> Option<usize>
        ensures { result ≡ wanted_shard self.now.visit }
    {
        if let Some(_message) = self.visit.first_message() {
            return None;
        }
        self.visit.next()
    }

    /// Calls [`warm_visits::Visit::enter`], unless no shard is named.
    pub fn enter(&mut self, node: &mut OpenNode)
        ensures { EntersIf (wanted_shard self.old.visit) self.old node.old self.new node.new }
    {
        if let Some(_shard) = self.next() {
            self.visit.enter(&mut node.node);
        }
    }

    /// What the call returns. If a shard has refused its errand, that is taken away, so that the
    /// visit can go on.
    ///
    /// # Errors
    /// `Node`, with `Memory`: a shard had no memory for its errand.
    pub fn result(&mut self) -> Result<(), Refusal>
        ensures { SaysResult self.old result self.new }
    {
        let done = self.visit.result();
        self.visit.resume();
        done?;
        Ok(())
    }

    /// Writes the earliest horizon that a shard kept, of a visit that raises.
    pub fn kept(&self, horizon: &mut u64)
        ensures { SaysKept horizon.old horizon.new self.now self.now }
    {
        if let Some(earliest) = self.visit.kept() {
            *horizon = earliest;
        }
    }

    // Hands out what comes last: the request behind an answer, or what was offered.
    fn hand_out_last(
        &mut self,
        alloc: Global,
        frame: &mut [u8],
        len: &mut usize,
    ) -> Result<(), Refusal>
        ensures { HandsOut (final_message self.old.visit) frame.old len.old frame.new len.new
            self.old result self.new }
    {
        let Some(message) = self.visit.final_message() else {
            *len = 0;
            return Ok(());
        };
        if let Err(why) = put_frame(alloc, &message, frame, len) {
            return Err(why);
        }
        self.visit.pass_message();
        Ok(())
    }

    /// Writes the frame of the next message of an answer, or of what was offered, and its length;
    /// length 0 if there is none. The visit is then without the message.
    ///
    /// # Errors
    /// The buffer is unchanged, and the message waits.
    /// - `Node`, with `Memory`: an allocation failed.
    /// - `BufferTooSmall`: the frame does not fit; its length is written.
    pub fn hand_out(
        &mut self,
        alloc: Global,
        frame: &mut [u8],
        len: &mut usize,
    ) -> Result<(), Refusal>
        ensures { HandsOutNext frame.old len.old frame.new len.new self.old result self.new }
    {
        let Some(message) = self.visit.first_message() else {
            return self.hand_out_last(alloc, frame, len);
        };
        if let Err(why) = put_frame(alloc, message, frame, len) {
            return Err(why);
        }
        self.visit.pass_message();
        Ok(())
    }

    /// Calls [`warm_rank::warm_list`] of the copy for as many pages as there is room for, puts them
    /// at the start of `pages`, and writes their number.
    ///
    /// # Errors
    /// In this order; `pages` and `count` are unchanged.
    /// - `Closed`: the visit copies nothing.
    /// - `Node`, with `Memory`: an allocation failed.
    pub fn list(
        &self,
        alloc: Global,
        pages: &mut [WarmPage],
        count: &mut usize,
    ) -> Result<(), Refusal>
        ensures { ListsCopy pages.old count.old pages.new count.new self.now result self.now }
    {
        let Some(history) = self.visit.history() else {
            return Err(Refusal::Closed);
        };
        // The list is over the references that the history holds: so it is not too long.
        prove_is_history(history);
        let hottest = warm_list(alloc, history, pages.len())?;
        let listed = c_pages(alloc, &hottest)?;
        put_pages(&listed, pages);
        *count = listed.len();
        Ok(())
    }

    // Writes a dump of a history to any writer, with the visit's replica as the sender.
    fn write_to<W: Write>(
        &self,
        alloc: Global,
        history: &History,
        writer: &mut W,
    ) -> Result<(), Refusal>
        ensures written { OnOk result (Appends (W.contents writer.old) (W.contents writer.new)
            (dump_of self.now.visit.id history.now)) }
        ensures refused { IfErr result SaveRefused }
    {
        write_dump(alloc, writer, self.visit.id(), history)?;
        Ok(())
    }

    /// Writes a dump of the copy to a file, from its start on, and syncs the file.
    ///
    /// # Errors
    /// The file may then hold any part of the dump.
    /// - `Closed`: the visit copies nothing.
    /// - `Dump`, with `Frame(Memory)` or `WriteFault`.
    pub fn save(&self, alloc: Global, descriptor: Descriptor) -> Result<(), Refusal>
        ensures { SavesCopy self.now result self.now }
    {
        let Some(history) = self.visit.history() else {
            return Err(Refusal::Closed);
        };
        let mut file = FileWriter::new(descriptor);
        self.write_to(alloc, history, &mut file)?;
        Ok(())
    }
}
