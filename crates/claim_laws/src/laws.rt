ghost use Rattle.std.specs.Prelude.{◌≡◌};
ghost use Rattle.claim_map.specs.Bounds.{IsWithinBounds};
ghost use Rattle.claim_laws.specs.Bounded.{BoundsStay};
ghost use Rattle.claim_laws.specs.Derived.{TakesEffectOnce, CommittedWereRecorded, RolledBackNeverRecorded, KeysHaveOneOwner, RecordKeysAreSound, LeasesAreWithinBounds, RefusalsAreFew, TransitionsWereSent};
ghost use Rattle.claim_laws.specs.Facts.{IsInOrder, IsStart, new_world};
ghost use Rattle.claim_map.specs.Registry.{Registry};
ghost use Rattle.claim_laws.specs.World.{World};
ghost use Rattle.claim_laws.specs.Files.{Files, StandFor};
ghost use Rattle.claim_laws.specs.Proper.{AreConfigured, IsProper, OpensProperFiles, IsSameMap};
ghost use Rattle.claim_laws.specs.Reopened.{WasReopened};
ghost use Rattle.claim_laws.specs.Schedules.{AfterEverySchedule, KeptByEverySchedule, AreStarts};

/// After every schedule the claim map is sound, what the cells keep fits it, every message that was
/// sent is true still, and the trace is a run of legal steps that leads from the claim map of the
/// start to this one.
pub fn every_schedule_is_legal()
    ensures { AfterEverySchedule (λ registry start w. IsInOrder registry start.claims w) }
{}

/// A new installation is a start: nobody holds a key, no range is given, and each cell was opened once.
pub fn a_new_installation_is_a_start()
    ensures { AreStarts (λ registry w. w ≡ new_world registry) }
{}

/// What opening every node again leaves of a world in order is a start: so runs follow on runs.
pub fn opened_nodes_are_a_start()
    ensures { AreStarts WasReopened }
{}

/// Proper files whose cells were just opened are a start.
pub fn proper_files_are_a_start()
    ensures { AreStarts OpensProperFiles }
{}

/// Files that stand for a start stand for the world after every schedule: each entry that was written
/// is legal in its turn, and the entries stand for what the nodes keep.
pub fn files_stand_for_every_schedule()
    ensures { KeptByEverySchedule StandFor }
{}

/// Proper files stay proper.
pub fn files_stay_proper()
    ensures { KeptByEverySchedule (λ registry files w. AreConfigured registry w × IsProper registry files w) }
{}

/// Proper files stand for one claim map: whichever world they stand for, it has the same.
pub fn proper_files_stand_for_one_claim_map()
    ensures { (registry : Registry) (files : Files) (v w : World) → IsProper registry files v →
        IsProper registry files w → IsSameMap v.claims w.claims }
{}

/// A lease takes effect at most once.
pub fn a_lease_takes_effect_once()
    ensures { AfterEverySchedule (λ registry start w. TakesEffectOnce w.trace) }
{}

/// A committed lease was recorded before.
pub fn committed_leases_were_recorded()
    ensures { AfterEverySchedule (λ registry start w. CommittedWereRecorded start.claims w.trace) }
{}

/// A lease that is rolled back never was recorded, nor will it be.
pub fn rolled_back_leases_are_never_recorded()
    ensures { AfterEverySchedule (λ registry start w. RolledBackNeverRecorded start.claims w.trace) }
{}

/// No key has two owners: records of two cells claim no key in common, and a key that one cell holds
/// is claimed by no other cell's records.
pub fn keys_have_one_owner()
    ensures { AfterEverySchedule (λ registry start w. KeysHaveOneOwner w.claims) }
{}

/// Each key that records claim is within its grammar, and no two records of a cell have one key.
pub fn keys_of_records_are_sound()
    ensures { AfterEverySchedule (λ registry start w. RecordKeysAreSound w.claims) }
{}

/// Each lease that the service or its cell knows, or that a begin, commit or rollback is of, is within
/// its bounds.
pub fn leases_are_within_bounds()
    ensures { AfterEverySchedule (λ registry start w. LeasesAreWithinBounds w) }
{}

/// Every message that is sent is within its bounds, and so is what the service keeps, where the start
/// is and what anybody requests is.
pub fn messages_are_within_bounds()
    ensures { (registry : Registry) (start : World) → IsStart registry start → IsWithinBounds start.claims →
        BoundsStay registry start }
{}

/// A reply to a commit is always good, and a begin is denied for no fault of its operations: they are
/// well formed, of the cell's own rows, and never others than those that its lease is open with.
pub fn refusals_are_few()
    ensures { AfterEverySchedule (λ registry start w. RefusalsAreFew w) }
{}

/// Each transition is of a packet that had been sent.
pub fn transitions_are_of_sent_packets()
    ensures { AfterEverySchedule (λ registry start w. TransitionsWereSent w) }
{}
