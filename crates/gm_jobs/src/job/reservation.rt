//! The memory for a job that is to be made.

ghost use Rattle.std.specs.Prelude.{◌≡◌, ◌≤◌, [], length, IfOk};
ghost use Rattle.std.specs.Option.{unwrap_or};
ghost use Rattle.std.specs.Vec.{vec_capacity};
ghost use Rattle.gm_jobs.specs.Live.{AreCarried, body_bytes, fresh};

use super::{Body, Job, LivePlace, NewJob};
use gm_bytes::SharedBytes;
use std::alloc::{AllocError, Global};
use std::marker::Model;

/// The memory for one job's texts, and for its first listener.
#[derive(Drop)]
pub(crate) struct Reservation {
    f: u32,
    unique: Vec<u8>,
    body: Vec<u8>,
    listeners: Vec<u32>,
}

impl Model for Reservation {
    ghost use Rattle.std.specs.Prelude.{◌≡◌, ◌<◌, []};
    ghost use Rattle.std.specs.Vec.{vec_capacity};
    ghost use Rattle.gm_jobs.specs.Tables.{Room};

    ghost Value = { Room };

    ghost view = { λ s. record { function = s.f; unique_len = vec_capacity s.unique; body_len = vec_capacity s.body } };

    ghost invariant = { λ s. (s.unique.items ≡ []) × (s.body.items ≡ []) × (s.listeners.items ≡ []) × (0 < vec_capacity s.listeners) };
}

// The body: the shared one, if there is one, and otherwise the bytes, in this memory.
fn fill_body(mut memory: Vec<u8>, bytes: &[u8], shared: Option<SharedBytes>) -> Body
    requires empty { memory.items ≡ [] }
    requires room { length bytes.now ≤ vec_capacity memory }
    ensures { body_bytes result ≡ unwrap_or shared bytes.now }
{
    match shared {
        Some(shared) => Body::Shared(shared),
        None => {
            let _body = memory.extend_from_slice(bytes);
            Body::Own(memory)
        }
    }
}

impl Reservation {
    pub(crate) fn new(
        alloc: Global,
        f: u32,
        unique_len: usize,
        body_len: usize,
    ) -> Result<Reservation, AllocError>
        ensures { IfOk result (λ room. room ≡ record { function = f; unique_len = unique_len; body_len = body_len }) }
    {
        Ok(Reservation {
            f,
            unique: Vec::with_capacity(alloc, unique_len)?,
            body: Vec::with_capacity(alloc, body_len)?,
            listeners: Vec::with_capacity(alloc, 1)?,
        })
    }

    /// The job, in this memory. A shared body takes the place of the one that it says.
    pub(crate) fn fill(
        self,
        alloc: Global,
        new: NewJob<'_>,
        shared: Option<SharedBytes>,
        digest: u64,
    ) -> Job
        requires unique { length new.unique.now ≤ self.unique_len }
        requires body { length new.body.now ≤ self.body_len }
        requires carried { AreCarried new.unique.now (unwrap_or shared new.body.now) }
        ensures { result ≡ fresh new.entry.f new.entry.p new.entry.unique.now (unwrap_or shared new.entry.body.now) new.entry.kept new.entry.listener }
    {
        let Reservation {
            f: _,
            mut unique,
            body,
            mut listeners,
        } = self;
        let _unique = unique.extend_from_slice(new.unique);
        let body = fill_body(body, new.body, shared);
        match new.listener {
            Some(slot) => {
                let _listens = listeners.push(slot);
            }
            None => listeners = Vec::new(alloc),
        }
        Job {
            f: new.f,
            p: new.p,
            kept: new.kept,
            live_place: LivePlace::Waiting,
            digest,
            returns: 0,
            deadline: None,
            unique,
            body,
            report: None,
            listeners,
        }
    }
}
