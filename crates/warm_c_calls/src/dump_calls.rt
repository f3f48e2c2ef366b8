//! The calls of an open handle that write its history to a file, or join one from a file.
ghost use Rattle.std.specs.Prelude.{None, IfErr, OnOk};
ghost use Rattle.std.specs.Io.KnownBytes.{Appends};
ghost use Rattle.warm_dump.specs.Dumps.{dump_of};
ghost use Rattle.warm_c_calls.specs.Calls.{SaveRefused, Loads, Saves};

use crate::open_node::OpenNode;
use std::alloc::Global;
use std::io::{Read, Write};
use warm_c_base::{Descriptor, FileReader, FileWriter, Refusal};
use warm_dump::{read_dump, write_dump};
use warm_history::laws::prove_is_history;

impl OpenNode {
    // Writes a dump of the node's history to any writer, with the node's replica as the sender.
    fn write_to<W: Write>(&self, alloc: Global, writer: &mut W) -> Result<(), Refusal>
        ensures written { OnOk result (Appends (W.contents writer.old) (W.contents writer.new)
            (dump_of self.now.node.id self.now.node.history)) }
        ensures refused { IfErr result SaveRefused }
    {
        write_dump(alloc, writer, self.node.id(), self.node.history())?;
        Ok(())
    }

    // Reads a dump from any reader to its end, and joins its history.
    fn read_from<R: Read>(&mut self, alloc: Global, reader: &mut R) -> Result<(), Refusal>
        ensures { Loads (R.remaining reader.old) self.old result self.new }
    {
        let history = match read_dump(alloc, reader) {
            Ok(history) => history,
            Err(error) => return Err(Refusal::Dump(error.fault)),
        };
        prove_is_history(&history);
        self.node.join(&history)?;
        Ok(())
    }

    /// Writes a dump of the node's history to a file, from its start on, and syncs the file.
    ///
    /// # Errors
    /// `Dump`, with `Frame(Memory)` or `WriteFault`. The file may then hold any part of the dump.
    pub fn save(&mut self, alloc: Global, descriptor: Descriptor) -> Result<(), Refusal>
        ensures { Saves self.old result self.new }
    {
        let mut file = FileWriter::new(descriptor);
        self.write_to(alloc, &mut file)?;
        Ok(())
    }

    /// Reads the dump that the first bytes of a file are, and calls [`warm_gossip::Node::join`]
    /// with its history. The answers that wait still wait.
    ///
    /// # Errors
    /// In this order; nothing that a caller sees has changed.
    /// - `Dump`: the bytes are no dump, or were not read.
    /// - `Node`: an allocation of the join failed.
    pub fn load(
        &mut self,
        alloc: Global,
        descriptor: Descriptor,
        length: u64,
    ) -> Result<(), Refusal>
        ensures { Loads None self.old result self.new }
    {
        let mut file = FileReader::new(descriptor, length);
        self.read_from(alloc, &mut file)?;
        Ok(())
    }
}
