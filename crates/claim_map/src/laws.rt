ghost use Rattle.std.specs.Prelude.{◌≡◌, ℕ, ◌≤◌, List, Some, None, IfSome};
ghost use Rattle.std.specs.List.{All};
ghost use Rattle.claim_types.specs.declared.lease.LeaseId.{LeaseId};
ghost use Rattle.claim_types.specs.declared.operations.Operations.{Operations};
ghost use Rattle.claim_types.specs.declared.cell.Cell.{Cell};
ghost use Rattle.claim_types.specs.declared.cell.Range.{Range};
ghost use Rattle.claim_types.specs.declared.verdict.Verdict.TheVariants.{Fresh};
ghost use Rattle.claim_map.specs.Verdict.{verdict_of, MayBegin};
ghost use Rattle.claim_types.specs.EntryBounds.{IsServiceEntry};
ghost use Rattle.claim_types.specs.MessageBounds.{IsReply, IsRequest};
ghost use Rattle.claim_types.specs.declared.message.Request.{Request};
ghost use Rattle.claim_map.specs.Registry.{Registry, cell_of};
ghost use Rattle.claim_map.specs.Ranges.{AreRanges, ranges_after, range_verdict};
ghost use Rattle.claim_types.specs.Bounds.{IsRange};
ghost use Rattle.claim_types.specs.EntryBounds.{AreEntryOperations};
ghost use Rattle.claim_types.specs.declared.record.Change.{Change};
ghost use Rattle.claim_map.specs.Claims.{claims_of, operations_of};
ghost use Rattle.claim_map.specs.Rules.{rule_of};
ghost use Rattle.claim_map.specs.Trees.{AreApart, TreeFits};
ghost use Rattle.claim_map.specs.State.{ClaimMap, LeaseState, Tree};
ghost use Rattle.claim_map.specs.Step.{after_any};
ghost use Rattle.claim_map.specs.Due.{due};
ghost use Rattle.claim_map.specs.Entries.{entry_of};
ghost use Rattle.claim_map.specs.Bounds.{AreCells, IsWithinBounds};

/// What is due to a request within its bounds, in a claim map within its bounds, is within its bounds,
/// and so is the claim map after it. So every reply of a service can be written, and is read back. The
/// entry that a service writes down for it, if any, is within its bounds too.
pub fn due_is_within_bounds()
    ensures reply { (registry : Registry) (s : ClaimMap) (request : Request) →
        AreCells registry → IsWithinBounds s → IsRequest request →
        IsReply (due registry s request).reply × IsWithinBounds (after_any s (due registry s request).step) }
    ensures entry { (registry : Registry) (s : ClaimMap) (request : Request) →
        AreCells registry → IsWithinBounds s → IsRequest request →
        IfSome (entry_of (due registry s request).step) IsServiceEntry }
{}

/// A begin that comes to be fresh is of a lease that is neither open nor settled, and of well-formed
/// operations whose claims are free.
pub fn fresh_is_free()
    ensures { (s : LeaseState) (ranges : List Range) (lease : LeaseId) (ops : Operations) →
        verdict_of s ranges lease ops ≡ Fresh → MayBegin s ranges lease ops }
{}

/// Where the cells have room for an identifier in each range, the ranges given stay sound after any
/// request for one: each is numbered and placed behind those before it, and none passes the greatest
/// identifier.
pub fn ranges_stay_sound()
    ensures { (registry : Registry) (ranges : List Range) (cell number : ℕ) →
        ((c : Cell) → cell_of registry cell ≡ Some c → 1 ≤ c.width) → AreRanges ranges →
        AreRanges (ranges_after (range_verdict registry ranges cell number) ranges) }
{}

/// The operations of a change that no rule refuses are well formed and within their bounds, where the
/// tree fits ranges within their bounds and no two of its records have one key. So an entry of the
/// change can be written.
pub fn operations_are_within_bounds()
    ensures { (tree : Tree) (change : Change) (known : List Range) →
        TreeFits tree known → All IsRange known → AreApart (claims_of tree) →
        rule_of tree change known ≡ None → AreEntryOperations (operations_of tree change known) }
{}
