// The buffer in which lines are gathered before a sink takes them.
ghost use Rattle.std.specs.Prelude.{◌≡◌, ◌+◌, ◌≤◌, ◌<◌, ◌++◌, [], decimal, length, vec_capacity, IsTrue, IfOk, OnOk, OnErr};
ghost use Rattle.rock_io.specs.Faults.{Rose};
ghost use Rattle.rock_io.specs.Sink.{TakesPrefix};

use crate::{Failed, Memory, Octets, Sink, write_all};
use itoa::Buffer;
use std::alloc::Global;

/// How many bytes of lines are gathered before they are written.
pub const BUFFER_BYTES: usize = 65_536;

/// Bytes of lines, gathered in memory that is taken once: what is added later takes none.
#[derive(Debug, Drop)]
pub struct LineBuffer {
    bytes: Vec<u8>,
    size: usize,
    ghost reserved: { size ≤ vec_capacity bytes },
}

impl LineBuffer {
    ghost use Rattle.rock_io.specs.LineBuffer.{held_of, size_of, HasRoom, Adds, Puts, Stops};

    /// An empty buffer for `size` bytes.
    ///
    /// # Errors
    ///
    /// [`Memory`] where memory runs out.
    pub fn new(alloc: Global, size: usize) -> Result<Self, Memory>
        ensures held { IfOk result (λ buffer. held_of buffer ≡ []) }
        ensures size { IfOk result (λ buffer. size_of buffer ≡ size) }
    {
        Ok(LineBuffer {
            bytes: Vec::with_capacity(alloc, size)?,
            size,
        })
    }

    /// Adds bytes for which there is room.
    pub fn put(&mut self, bytes: &[u8])
        requires { HasRoom self.old bytes.now }
        ensures { Adds self.old self.new bytes.now }
    {
        match self.bytes.extend_from_slice(bytes) {
            Ok(()) => (),
            // The room was reserved.
            Err(_) => unreachable!(),
        }
    }

    /// Adds a number in decimal for which there is room.
    pub fn put_number(&mut self, number: u64)
        requires { HasRoom self.old (decimal number) }
        ensures { Adds self.old self.new (decimal number) }
    {
        self.put(Buffer::new().format(number).as_bytes());
    }

    /// Writes what the buffer holds. It is empty then.
    ///
    /// # Errors
    ///
    /// [`Failed`] where the sink's count of faults rose.
    pub fn write_to<K: Sink>(&mut self, out: &mut K) -> Result<(), Failed>
        ensures held { OnOk result (held_of self.new ≡ []) }
        ensures size { size_of self.new ≡ size_of self.old }
        ensures all { OnOk result (IsTrue K.tells → K.taken out.new ≡ K.taken out.old ++ held_of self.old) }
        ensures prefix { IsTrue K.tells → TakesPrefix (K.taken out.old) (K.taken out.new) (held_of self.old) }
        ensures faults { K.faults out.old ≤ K.faults out.new }
        ensures unfailed { OnOk result (K.faults out.new ≡ K.faults out.old) }
        ensures failed { OnErr result (Rose (K.faults out.old) (K.faults out.new)) }
    {
        write_all(out, &self.bytes)?;
        self.bytes.clear();
        Ok(())
    }

    /// Makes room for `count` bytes: where they do not fit after what the buffer holds, that is written.
    ///
    /// # Errors
    ///
    /// [`Failed`] where the sink's count of faults rose.
    pub fn make_room<K: Sink>(&mut self, out: &mut K, count: usize) -> Result<(), Failed>
        ensures room { OnOk result (count ≤ size_of self.old → length (held_of self.new) + count ≤ size_of self.new) }
        ensures held { OnOk result (size_of self.old < count → held_of self.new ≡ []) }
        ensures size { size_of self.new ≡ size_of self.old }
        ensures all { OnOk result (IsTrue K.tells → Puts [] (K.taken out.old) (held_of self.old) (K.taken out.new) (held_of self.new)) }
        ensures prefix { OnErr result (IsTrue K.tells → TakesPrefix (K.taken out.old) (K.taken out.new) (held_of self.old)) }
        ensures faults { K.faults out.old ≤ K.faults out.new }
        ensures unfailed { OnOk result (K.faults out.new ≡ K.faults out.old) }
        ensures failed { OnErr result (Rose (K.faults out.old) (K.faults out.new)) }
    {
        if count <= self.size && self.bytes.len() <= self.size - count {
            return Ok(());
        }
        self.write_to(out)
    }

    /// Puts a line after what the buffer holds. Where it does not fit, that is written first, and a line that is longer
    /// than the buffer is written by itself.
    ///
    /// # Errors
    ///
    /// [`Failed`] where the sink's count of faults rose.
    pub fn put_line<K: Sink>(&mut self, out: &mut K, line: &[u8]) -> Result<(), Failed>
        ensures size { size_of self.new ≡ size_of self.old }
        ensures all { OnOk result (IsTrue K.tells → Puts line.now (K.taken out.old) (held_of self.old) (K.taken out.new) (held_of self.new)) }
        ensures prefix { OnErr result (IsTrue K.tells → Stops line.now (K.taken out.old) (held_of self.old) (K.taken out.new)) }
        ensures faults { K.faults out.old ≤ K.faults out.new }
        ensures unfailed { OnOk result (K.faults out.new ≡ K.faults out.old) }
        ensures failed { OnErr result (Rose (K.faults out.old) (K.faults out.new)) }
    {
        self.make_room(out, line.len())?;
        if line.len() > self.size {
            return write_all(out, line);
        }
        self.put(line);
        Ok(())
    }

    /// The bytes that it holds, as they are. It takes no memory.
    pub fn into_octets(self) -> Octets
        ensures { result ≡ held_of self }
    {
        Octets::from_vec(self.bytes)
    }
}
