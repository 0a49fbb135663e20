//! The state that all threads of a server share.

ghost use Rattle.std.specs.Prelude.{◌≡◌, ◌<◌, ◌≤◌, Option, All, [], IfSome, IfNone, IfOk, map};
ghost use Rattle.gm_shared.specs.Shared.{numbers_below};
ghost use Rattle.gm_session.specs.Effects.{IsNothing};
ghost use Rattle.gm_session.specs.Owners.{Opens};
ghost use Rattle.gm_slots.specs.Served.{SettledSo};

use crate::crews::Crews;
use crate::progress::Progress;
use crate::server::Service;
use gm_delivery::{DeliveryContext, Finish, Leftover, ServerStage};
use gm_feeder::Limits;
use gm_lane_word::Due;
use gm_notes::{ApplyError, Mode};
use gm_session::{Effects, Host, OwnDesk};
use gm_shared::{Blank, BlankPairing, BookName, Pairing, Shared};
use gm_slots::{Served, Slot, open_slots, settle_slots};
use gm_time::{DELIVERING_TIME_MS, has_passed};
use std::alloc::{AllocError, Global};
use std::net::TcpListener;
use std::sync::Wait;
use std::time::{Clock, Duration};

/// The state that all threads of a server share.
#[derive(Drop)]
pub(crate) struct ServerState<K: BookName> {
    pub(crate) alloc: Global,
    pub(crate) listener: TcpListener,
    pub(crate) crews: Crews,
    // How large a unit may be.
    pub(crate) limits: Limits,
    pub(crate) shared: Shared<K>,
    pub(crate) slots: Vec<Slot<K>>,
    // How many slots the book has.
    pub(crate) slot_count: u32,
    // The state that its sessions share.
    pub(crate) host: Host<K>,
    pub(crate) progress: Progress,
    ghost sized: { slot_count ≡ K.settings.slots },
    ghost numbered: { map (λ slot. slot.lane.slot) slots.items ≡ numbers_below slot_count },
}

impl<K: BookName> ServerState<K> {
    /// Opens a book for the threads of a new server, and the pairing of the sides of its slots. The server takes the
    /// service, so that no other book serves its connections.
    pub(crate) fn new(
        rt: &impl Clock,
        alloc: Global,
        blank: Blank,
        sockets: BlankPairing,
        service: Service,
    ) -> Result<(ServerState<K>, Pairing<K>), AllocError>
        requires table { blank.table ≡ K.table }
        requires history { blank.history ≡ K.history }
        requires settings { blank.settings ≡ K.settings }
        requires taped { blank.taped ≡ K.taped }
        requires sockets { sockets ≡ K.sockets }
        ensures { IfOk result (λ made. made.0.limits ≡ service.limits) }
    {
        let slot_count = blank.slots();
        let Service {
            listener,
            limits,
            crews,
            speaker,
            ..
        } = service;
        let (shared, slots, control, pairing) = open_slots(alloc, blank, sockets, limits)?;
        let state = ServerState {
            alloc,
            listener,
            crews,
            limits,
            shared,
            slots,
            slot_count,
            host: Host::new(rt, control, speaker),
            progress: Progress::new(),
        };
        Ok((state, pairing))
    }

    /// Ends the book and compares it with what the desks and pens were told. No thread has a part of the server any
    /// more.
    pub(crate) fn settle(self, pairing: Pairing<K>) -> Result<Served, AllocError>
        ensures { IfOk result (λ served. SettledSo K.settings K.taped self.limits K.history served.book served.accounts.items) }
    {
        let ServerState {
            alloc,
            limits,
            shared,
            slots,
            slot_count,
            host,
            ..
        } = self;
        settle_slots(
            alloc,
            shared,
            slots,
            slot_count,
            host.into_desk(),
            pairing,
            limits,
        )
    }

    pub(crate) fn slot(&self, number: u32) -> Option<&Slot<K>>
        ensures some { IfSome result (λ slot. slot.now.lane.slot ≡ number) }
        ensures none { IfNone result (self.now.slot_count ≤ number) }
    {
        self.slots.get(number as usize)
    }

    /// Has each connection end.
    pub(crate) fn stop(&self) {
        // Modelled in models/shutdown.pml.
        self.progress.stage.rise(ServerStage::Stopped as u8);
        self.crews.wake_all();
    }

    /// Follows the book's mode.
    fn follow(&self, mode: Mode) {
        // Modelled in models/serving.h.
        match mode {
            Mode::Running => {}
            Mode::Graceful => {
                self.progress.stage.rise(ServerStage::Graceful as u8);
            }
            Mode::Stopped => {
                if self.progress.stage.rise(ServerStage::Stopped as u8) {
                    self.crews.wake_all();
                }
            }
        }
    }

    /// Delivers to a slot that has something due, unless another thread does; or leaves that to its finisher, if it
    /// is late.
    fn touch<R: Wait + Clock>(
        &self,
        context: &DeliveryContext<'_, K, R>,
        number: u32,
        due: Due,
        is_late: bool,
    )
        requires slot { due.slot ≡ number }
        requires within { number < K.settings.slots }
    {
        // Modelled in models/deliver.pml.
        let Some(slot) = self.slot(number) else {
            unreachable!()
        };
        let leftover = if is_late {
            slot.lane.touch_for_finisher(due)
        } else {
            slot.lane.touch(context, due)
        };
        self.wake_for(leftover);
    }

    /// The context of a delivery by this thread.
    pub(crate) fn delivery<'a, R>(&'a self, rt: &'a R) -> DeliveryContext<'a, K, R> {
        DeliveryContext {
            rt,
            shared: &self.shared,
            server: &self.progress.stage,
            speaker: &self.host.speaker,
        }
    }

    /// Has a lane's finisher woken, if that is left to do, and says what the delivery left to do.
    #[inline(always)]
    pub(crate) fn wake_for(&self, leftover: Leftover) -> Option<Finish>
        ensures { result ≡ leftover.finish }
    {
        // Modelled in models/lane.h.
        leftover.settle(|slot| self.crews.wake(slot))
    }

    /// Notifies other threads of the effects of events, once the book's lock is let go: touches the lane of each
    /// touched slot, and delivers unless another thread does, until the time is over; then it has the finishers do so.
    /// The slot whose connection's events they were is answered first: there may be a thousand others.
    pub(crate) fn notify<R: Wait + Clock>(&self, rt: &R, own: Option<u32>, effects: &mut Effects<K>)
        ensures { IsNothing effects.new }
    {
        // Modelled in models/jobs.pml, ticks.pml, deliver.pml and serving.h.
        self.follow(effects.take_mode());
        let context = self.delivery(rt);
        if let Some(number) = own
            && let Some(due) = effects.take(number)
        {
            self.touch(&context, number, due, false);
        }
        // For one slot the clock isn't read.
        let mut begun = None;
        let mut from = 0;
        while let Some(due) = effects.take_next(from) {
            let time = Duration::from_millis(DELIVERING_TIME_MS);
            let is_late = from > 0 && has_passed(rt, &mut begun, time);
            let number = due.slot();
            from = number + 1;
            self.touch(&context, number, due, is_late);
        }
    }

    /// Opens a slot for a connection from this address. Only a refusal leaves the connection without one.
    pub(crate) fn open<R: Wait + Clock>(
        &self,
        rt: &R,
        desk: &mut OwnDesk<K>,
        addr: &[u8],
    ) -> Result<Option<u32>, ApplyError>
        ensures opens { Opens K.settings K.taped desk.old.desk.number addr.now result desk.old.desk.witness.seen desk.new.desk.witness.seen }
        ensures number { desk.new.desk.number ≡ desk.old.desk.number }
    {
        // Modelled in models/shutdown.pml and ticks.pml.
        let mut effects = Effects::new();
        let opened = desk.open(rt, &self.shared, addr, &mut effects);
        self.notify(rt, None, &mut effects);
        effects.discharge();
        opened
    }

    /// Hands in the present second, if it is later than the last that was, and notifies others of its effects.
    pub(crate) fn update_time<R: Wait + Clock>(&self, rt: &R) {
        // Modelled in models/ticks.pml.
        let mut effects = Effects::new();
        self.host.update(rt, &self.shared, &mut effects);
        self.notify(rt, None, &mut effects);
        effects.discharge();
    }
}
