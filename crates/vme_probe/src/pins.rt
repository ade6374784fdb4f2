//! The probed pins, as segments of the daisy chains.
ghost use Rattle.std.specs.Prelude.{◌≡◌, ◌==◌, ◌&&◌, ◌||◌, ◌<◌, ℕ, if◌then◌else◌, nat_lt};
ghost use Rattle.vme_bus.specs.Sets.{has};
ghost use Rattle.vme_probe.specs.Pins.{HoldsProbed, is_in, probe_at, segment_at};

use crate::texts::SLOTS;
use vme_bus::SlotSet;
use vme_captures::{Probe, Segment};
use vme_model::ChainId;
use vme_standings::Segments;

/// The segment that the board in a slot drives, or the controller's for 0.
pub(crate) fn segment_at(chain: ChainId, slot: u8) -> Segment
    ensures { result ≡ segment_at chain slot }
{
    Segment {
        chain,
        place: if slot == 0 { None } else { Some(slot) },
    }
}

/// The probe on a segment, if there is one.
pub(crate) fn probe_at(probes: &[Probe], segment: Segment) -> Option<Probe>
    ensures { result ≡ probe_at probes.now segment }
{
    probes.iter().copied().find(|probe| probe.wire == segment)
}

/// Whether there is a probe on the segment; if `low`, one that is low.
fn is_in(probes: &[Probe], segment: Segment, low: bool) -> bool
    ensures { result ≡ is_in low probes.now segment }
{
    match probe_at(probes, segment) {
        Some(probe) => probe.low || !low,
        None => false,
    }
}

/// The set with the slot if it is to be in it.
fn with_if(slots: SlotSet, slot: u8, is_in: bool) -> SlotSet
    requires { slot < 32 }
    ensures { (s : ℕ) → has result s
        ≡ (if s == slot then (has slots s || is_in) else has slots s) }
{
    if is_in { slots.with(slot) } else { slots }
}

/// Of the segments of a chain those with a probe; if `low`, of these those that are low.
fn places_in(probes: &[Probe], chain: ChainId, low: bool) -> SlotSet
    ensures { (s : ℕ) → has result s
        ≡ (nat_lt s 22 && is_in low probes.now (segment_at chain s)) }
{
    let mut places = SlotSet::NONE;
    for slot in 0..SLOTS {
        let is_there = is_in(probes, segment_at(chain, slot), low);
        places = with_if(places, slot, is_there);
    }
    places
}

/// The segments with a probe; if `low`, of these those that are low.
pub(crate) fn segments_of(probes: &[Probe], low: bool) -> Segments
    ensures { HoldsProbed low probes.now result }
{
    Segments {
        grants: [
            places_in(probes, ChainId::Bg0, low),
            places_in(probes, ChainId::Bg1, low),
            places_in(probes, ChainId::Bg2, low),
            places_in(probes, ChainId::Bg3, low),
        ],
        acknowledge: places_in(probes, ChainId::Iack, low),
    }
}
