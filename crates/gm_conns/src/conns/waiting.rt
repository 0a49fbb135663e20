//! The bytes that wait for connections.

ghost use Rattle.std.specs.Prelude.{◌≡◌, ◌≤◌, true, false, ◌++◌, ◌+◌, length, OnOk, OnErr};
ghost use Rattle.gm_conns.specs.Connections.{with_room, with_bytes, emptied};
ghost use Rattle.gm_conns.specs.ConnTables.{conn, IsOpen, Changes};

use super::Conns;
use gm_bytes::{ByteQueue, SharedBytes};
use std::alloc::AllocError;

impl Conns {
    /// Makes room for `n` bytes beyond those that wait. Two calls don't add up.
    #[inline(always)]
    pub fn reserve_out(&mut self, slot: u32, n: usize) -> Result<(), AllocError>
        requires { IsOpen self.old slot }
        ensures ok { OnOk result (Changes slot (with_room n) false self.old self.new) }
        ensures err { OnErr result (self.new ≡ self.old) }
    {
        let conn = &mut self.conns[slot as usize];
        conn.queue.reserve(n)
    }

    /// The bytes wait for the connection, after the others, in reserved room.
    #[inline(always)]
    pub fn put_out(&mut self, slot: u32, bytes: &[u8])
        requires open { IsOpen self.old slot }
        requires room { length bytes.now ≤ (conn self.old slot).room }
        ensures { Changes slot (with_bytes bytes.now (length bytes.now)) true self.old self.new }
    {
        let conn = &mut self.conns[slot as usize];
        conn.queue.put(bytes);
        self.touched.insert(slot);
    }

    /// The head and the tail wait for the connection, after the others, in reserved room: the tail, which is shared,
    /// takes `SHARED_ROOM` of it.
    pub fn put_shared(&mut self, slot: u32, head: &[u8], tail: SharedBytes)
        requires open { IsOpen self.old slot }
        requires room { length head.now + 512 ≤ (conn self.old slot).room }
        ensures { Changes slot (with_bytes (head.now ++ tail) (length head.now + 512)) true self.old self.new }
    {
        let conn = &mut self.conns[slot as usize];
        conn.queue.put_shared(head, tail);
        self.touched.insert(slot);
    }

    /// The bytes that wait for the connection.
    pub fn waiting(&self, slot: u32) -> &ByteQueue
        requires { IsOpen self.now slot }
        ensures bytes { result.now.bytes ≡ (conn self.now slot).waiting }
        ensures room { result.now.room ≡ (conn self.now slot).room }
    {
        let conn = &self.conns[slot as usize];
        &conn.queue
    }

    /// Takes out the bytes that wait. No room is reserved then. It doesn't touch the slot, since whoever drains it has
    /// the bytes.
    pub fn drain(&mut self, slot: u32) -> ByteQueue
        requires { IsOpen self.old slot }
        ensures bytes { result.bytes ≡ (conn self.old slot).waiting }
        ensures rest { Changes slot emptied false self.old self.new }
    {
        let conn = &mut self.conns[slot as usize];
        conn.queue.take()
    }
}
