ghost use Rattle.std.specs.Prelude.{◌≡◌, ◌≢◌, ◌+◌, ◌-◌, ◌<◌, ◌≤◌, ◌==◌, [], true, false, IsTrue, ℕ, Some, length, take, drop, find, insert, slice_get, IfOk, OnOk, vec_len, vec_capacity};
ghost use Rattle.cells_base.specs.Causes.{Rose};
ghost use Rattle.cells_edge.specs.Carrying.{kind_at, queue_after, is_fault, counted_if, IsPutOn, IsTakeOn};
ghost use Rattle.cells_edge.specs.Places.{AreWithin, packets_at};
ghost use Rattle.cells_edge.specs.Wire.{IsFront, IsPut, IsStill, IsTaken, HasWireCause};
ghost use Rattle.cells_edge.specs.declared.memory_wire.Disturbance.{Disturbance};
ghost use Rattle.cells_edge.specs.declared.wire.Packet.{Packet};

use crate::{Leg, Packet, Wire, WireError};
use cells_base::{Copied, NoMemory, Text, behind};
use std::alloc::Global;
use std::marker::Model;

/// What may befall a call of a wire.
#[derive(Clone, Copy, Debug)]
pub enum DisturbanceKind {
    /// A packet that is put does not go on its way.
    Lose,
    /// A packet that is put goes on its way twice.
    Repeat,
    /// A packet that is put goes in front of the last one on its way.
    Swap,
    /// A call fails. A packet that is put does not go on its way, and a take gives none.
    Fail,
}

/// What befalls one call, by the call's number. Puts and takes are numbered together, from 1.
#[derive(Clone, Copy, Debug)]
pub struct Disturbance {
    pub call: u64,
    pub kind: DisturbanceKind,
}

// The first disturbance that names the call.
fn named(disturbances: &[Disturbance], call: u64) -> Option<Disturbance>
    ensures { result ≡ find (λ (it : Disturbance). it.call == call) disturbances.now }
{
    disturbances.iter().copied().find(|it| it.call == call)
}

fn kind_of(disturbances: &[Disturbance], call: u64) -> Option<DisturbanceKind>
    ensures { result ≡ kind_at disturbances.now call }
{
    match named(disturbances, call) {
        Some(found) => Some(found.kind),
        None => None,
    }
}

// Whether a call fails.
fn is_failure(kind: Option<DisturbanceKind>) -> bool
    ensures fails { IsTrue result → kind ≡ Some DisturbanceKind.Fail }
    ensures passes { result ≡ false → kind ≢ Some DisturbanceKind.Fail }
{
    matches!(kind, Some(DisturbanceKind::Fail))
}

// The count of faults after a call that was one or not.
fn faults_after(faults: u64, fault: bool) -> u64
    ensures count { result ≡ counted_if fault faults }
    ensures later { faults ≤ result }
    ensures rose { IsTrue fault → Rose faults result }
{
    if fault {
        return faults.saturating_add(1);
    }
    faults
}

// Room for one packet more, and for two places more.
fn make_room(packets: &mut Vec<Packet>, places: &mut Vec<usize>) -> Result<(), NoMemory>
    ensures packets { packets.new.items ≡ packets.old.items }
    ensures places { places.new.items ≡ places.old.items }
    ensures len { (vec_len packets.new ≡ vec_len packets.old) × (vec_len places.new ≡ vec_len places.old) }
    ensures room { OnOk result ((vec_len packets.new + 1 ≤ vec_capacity packets.new) ×
        (vec_len places.new + 2 ≤ vec_capacity places.new)) }
{
    packets.reserve(1)?;
    places.reserve(2)?;
    Ok(())
}

// An insertion that finds room.
fn insert_reserved(places: &mut Vec<usize>, at: usize, place: usize)
    requires within { at ≤ vec_len places.old }
    requires room { vec_len places.old < vec_capacity places.old }
    ensures items { places.new.items ≡ insert places.old.items at place }
    ensures len { vec_len places.new ≡ vec_len places.old + 1 }
{
    let _ = places.insert(at, place);
}

// Adds a place to those behind the first `taken`, as a put has it that this befell, and answers whether that
// is a fault.
fn enqueue(
    places: &mut Vec<usize>,
    taken: usize,
    kind: Option<DisturbanceKind>,
    place: usize,
) -> bool
    requires within { taken ≤ vec_len places.old }
    requires room { vec_len places.old + 2 ≤ vec_capacity places.old }
    ensures queued { drop taken places.new.items ≡ queue_after kind place (drop taken places.old.items) }
    ensures handed { take taken places.new.items ≡ take taken places.old.items }
    ensures fault { result ≡ is_fault kind (vec_len places.old - taken) }
    ensures grows { vec_len places.old ≤ vec_len places.new }
    ensures places { (size : ℕ) → place < size → AreWithin size places.old.items → AreWithin size places.new.items }
{
    match kind {
        None => {
            places.push_reserved(place);
            false
        }
        Some(DisturbanceKind::Repeat) => {
            places.push_reserved(place);
            places.push_reserved(place);
            true
        }
        Some(DisturbanceKind::Swap) => enqueue_before_last(places, taken, place),
        Some(DisturbanceKind::Lose | DisturbanceKind::Fail) => true,
    }
}

// Adds a place in front of the last behind the first `taken`, and answers whether there is one.
fn enqueue_before_last(places: &mut Vec<usize>, taken: usize, place: usize) -> bool
    requires within { taken ≤ vec_len places.old }
    requires room { vec_len places.old < vec_capacity places.old }
    ensures queued { drop taken places.new.items ≡
        queue_after (Some DisturbanceKind.Swap) place (drop taken places.old.items) }
    ensures handed { take taken places.new.items ≡ take taken places.old.items }
    ensures fault { result ≡ is_fault (Some DisturbanceKind.Swap) (vec_len places.old - taken) }
    ensures grows { vec_len places.old ≤ vec_len places.new }
    ensures places { (size : ℕ) → place < size → AreWithin size places.old.items → AreWithin size places.new.items }
{
    let len = places.len();
    if len == taken {
        places.push_reserved(place);
        return false;
    }
    insert_reserved(places, len - 1, place);
    true
}

// A copy of the packet at the first of these places, if there is one.
fn copy_first(
    alloc: Global,
    packets: &[Packet],
    places: &[usize],
) -> Result<Option<Packet>, NoMemory>
    requires { AreWithin (length packets.now) places.now }
    ensures { IfOk result (λ given. given ≡ slice_get (packets_at packets.now places.now) 0) }
{
    if places.is_empty() {
        return Ok(None);
    }
    let packet = &packets[places[0]];
    Ok(Some(Packet {
        leg: packet.leg,
        bytes: packet.bytes.copy(alloc)?,
    }))
}

/// A wire in memory. It keeps every packet that was put, and disturbs the calls that its list names: of two
/// disturbances with one number the first counts. `Lose`, `Repeat` and `Swap` are of puts, and a take with
/// such a number passes, as does a swap with nothing on its way; whatever disturbs a call is counted. A call
/// that wants memory has no number, and leaves the wire as it was.
#[derive(Drop)]
pub struct MemoryWire {
    sent: Vec<Packet>,
    // The places in `sent` of the packets that went on their way, in the order in which they are handed over.
    // The first `taken` of them were.
    places: Vec<usize>,
    taken: usize,
    disturbances: Vec<Disturbance>,
    calls: u64,
    faults: u64,
}

impl Model for MemoryWire {
    ghost use Rattle.std.specs.Prelude.{◌≤◌, length, take, drop};
    ghost use Rattle.cells_base.specs.Causes.{Rose};
    ghost use Rattle.cells_edge.specs.Carrying.{Carrying};
    ghost use Rattle.cells_edge.specs.Places.{AreWithin, packets_at};

    ghost Value = { Carrying };

    ghost view = { λ w. record {
      sent = w.sent.items;
      queued = packets_at w.sent.items (drop w.taken w.places.items);
      handed = packets_at w.sent.items (take w.taken w.places.items);
      disturbances = w.disturbances.items;
      calls = w.calls;
      faults = w.faults;
    } };

    ghost invariant = { λ w. (w.taken ≤ length w.places.items) × AreWithin (length w.sent.items) w.places.items };
}

impl MemoryWire {
    /// An empty wire with these disturbances.
    pub fn new(alloc: Global, disturbances: Vec<Disturbance>) -> Self
        ensures { result ≡ record {
          sent = [];
          queued = [];
          handed = [];
          disturbances = disturbances.items;
          calls = 0;
          faults = 0;
        } }
    {
        MemoryWire {
            sent: Vec::new(alloc),
            places: Vec::new(alloc),
            taken: 0,
            disturbances,
            calls: 0,
            faults: 0,
        }
    }

    /// How many calls there were.
    pub fn calls(&self) -> u64
        ensures { result ≡ self.now.calls }
    {
        self.calls
    }

    // A put, by what is set to befall it.
    fn put_on(&mut self, alloc: Global, leg: Leg, packet: &[u8]) -> Result<(), WireError>
        ensures put { IsPutOn result (record { leg = leg; bytes = packet.now }) self.old self.new }
        ensures cause { HasWireCause self.old.faults self.new.faults result }
    {
        let bytes = Text::from_slice(alloc, packet)?;
        make_room(&mut self.sent, &mut self.places)?;
        let call = self.calls.saturating_add(1);
        let kind = kind_of(&self.disturbances, call);
        let place = self.sent.len();
        let fault = enqueue(&mut self.places, self.taken, kind, place);
        self.sent.push_reserved(Packet { leg, bytes });
        self.calls = call;
        self.faults = faults_after(self.faults, fault);
        if is_failure(kind) {
            return Err(WireError::Failed);
        }
        Ok(())
    }

    // A take, by what is set to befall it.
    fn take_on(&mut self, alloc: Global) -> Result<Option<Packet>, WireError>
        ensures take { IsTakeOn result self.old self.new }
        ensures cause { HasWireCause self.old.faults self.new.faults result }
    {
        let call = self.calls.saturating_add(1);
        if is_failure(kind_of(&self.disturbances, call)) {
            self.calls = call;
            self.faults = faults_after(self.faults, true);
            return Err(WireError::Failed);
        }
        let given = copy_first(alloc, &self.sent, behind(&self.places, self.taken))?;
        self.calls = call;
        self.taken = (self.taken + 1).min(self.places.len());
        Ok(given)
    }
}

impl Wire for MemoryWire {
    ghost tells = { true };

    ghost sent = { λ w. w.sent };

    ghost queued = { λ w. w.queued };

    ghost handed = { λ w. w.handed };

    ghost faults = { λ w. w.faults };

    fn put(&mut self, alloc: Global, leg: Leg, packet: &[u8]) -> Result<(), WireError>
        ensures sent { IsPut result (record { leg = leg; bytes = packet.now }) self.old.sent self.new.sent }
        ensures handed { self.new.handed ≡ self.old.handed }
        ensures queued { IsStill self.old.faults self.new.faults →
            IsPut result (record { leg = leg; bytes = packet.now }) self.old.queued self.new.queued }
        ensures cause { HasWireCause self.old.faults self.new.faults result }
        ensures put { IsPutOn result (record { leg = leg; bytes = packet.now }) self.old self.new }
    {
        self.put_on(alloc, leg, packet)
    }

    fn take(&mut self, alloc: Global) -> Result<Option<Packet>, WireError>
        ensures sent { self.new.sent ≡ self.old.sent }
        ensures handed { IsTaken result self.old.handed self.new.handed }
        ensures front { IsStill self.old.faults self.new.faults → IsFront result self.old.queued self.new.queued }
        ensures cause { HasWireCause self.old.faults self.new.faults result }
        ensures take { IsTakeOn result self.old self.new }
    {
        self.take_on(alloc)
    }
}
