//! Worked examples of what a line waits for and comes to, and of what is lost on the way.
ghost use Rattle.std.specs.Prelude.{◌≡◌, ℕ, [], ◌∷◌, true, false, Some, None};
ghost use Rattle.cells_edge.specs.declared.wire.Packet.{Packet as WirePacket};
ghost use Rattle.claim_laws.specs.World.{Packet};
ghost use Rattle.claim_types.specs.declared.message.RangedResult.TheVariants.{TooFar as PastNext};
ghost use Rattle.claim_types.specs.declared.message.Reply.TheVariants.{Ranged as RangedReply};
ghost use Rattle.cells_script.specs.declared.answer.Answer.TheVariants.{Accepted, Changed, Denied, Reconciled, TooFar, Waiting};
ghost use Rattle.cells_world.specs.Answers.{answer_of_change, answer_of_range, answer_of_reconcile};
ghost use Rattle.cells_world.specs.Course.{after_hand, after_packet};
ghost use Rattle.cells_world.specs.Examples.{answering, changed, committed, denied, granted, lease_of, owned, page_of, recorded};
ghost use Rattle.cells_world.specs.OnWay.{put_behind};
ghost use Rattle.cells_world.specs.Packets.{after_put, let_through, spelled};
ghost use Rattle.cells_world.specs.Post.{armed_with};
ghost use Rattle.cells_world.specs.Puts.{packet_tagged};
ghost use Rattle.cells_world.specs.declared.course.Course.TheVariants.{Awaits, Idle, Replied};

/// The second put from now on is lost, and no other.
pub fn the_second_put_is_lost()
    ensures { (a b c : WirePacket) → let_through (armed_with 2 []) (a ∷ b ∷ c ∷ []) ≡ a ∷ c ∷ [] }
{}

/// Each loss counts from where it was armed: of two that count to 2, the second armed one put later, the next two are lost.
pub fn each_loss_counts_for_itself()
    ensures { (a b c : WirePacket) →
        let_through (armed_with 2 (after_put (armed_with 2 []))) (a ∷ b ∷ c ∷ []) ≡ c ∷ [] }
{}

/// At 0 nothing that was armed is lost any more; what is armed behind it is.
pub fn at_0_nothing_is_lost()
    ensures none { (a : WirePacket) → let_through (armed_with 0 (1 ∷ [])) (a ∷ []) ≡ a ∷ [] }
    ensures anew { (a b : WirePacket) → let_through (armed_with 1 (armed_with 0 (2 ∷ []))) (a ∷ b ∷ []) ≡ b ∷ [] }
{}

/// What is put goes behind the packets on their way, but for one that is lost, whose loss is armed no more.
pub fn what_is_put_goes_behind()
    ensures { (a b c : WirePacket) →
        put_behind (a ∷ b ∷ []) (record { packets = c ∷ []; armed = 2 ∷ 5 ∷ [] })
        ≡ record { packets = c ∷ a ∷ []; armed = 3 ∷ [] } }
{}

/// Tags count from 1: where two packets were sent, none has tag 0 or 3.
pub fn tags_count_from_1()
    ensures zero { (p q : Packet) → packet_tagged 0 (p ∷ q ∷ []) ≡ [] }
    ensures first { (p q : Packet) → packet_tagged 1 (p ∷ q ∷ []) ≡ spelled 0 p ∷ [] }
    ensures second { (p q : Packet) → packet_tagged 2 (p ∷ q ∷ []) ≡ spelled 1 q ∷ [] }
    ensures past { (p q : Packet) → packet_tagged 3 (p ∷ q ∷ []) ≡ [] }
{}

/// The reply to packet 3 is awaited: one that answers packet 2 is another's; behind a page with more to come, the packet sent last,
/// of 7, asked for the next one; behind one that lists nothing, none did; and the last page is the reply.
pub fn pages_are_followed()
    ensures another { after_packet 3 4 (Some (answering 2 (page_of [] false))) 7 ≡ Awaits 3 }
    ensures more { after_packet 3 4 (Some (answering 3 (page_of (lease_of 1 ∷ []) true))) 7 ≡ Awaits 7 }
    ensures nothing_listed { after_packet 3 4 (Some (answering 3 (page_of [] true))) 7 ≡ Idle }
    ensures last { after_packet 3 4 (Some (answering 3 (page_of (lease_of 1 ∷ []) false))) 7 ≡ Replied 4 }
{}

/// The first reply counts: once there is one, another that answers the same packet changes nothing.
pub fn the_first_reply_counts()
    ensures { (p q : Packet) → after_hand (p ∷ q ∷ answering 2 (page_of [] false) ∷ []) 2 (Replied 1) ≡ Replied 1 }
{}

/// A change is recorded, or its attempt ended since the records had changed, or its begin was refused, or it waits.
pub fn a_change_comes_to_its_end()
    ensures waits { answer_of_change (lease_of 1) [] [] None ≡ Waiting (Some (lease_of 1)) }
    ensures granted { answer_of_change (lease_of 1) [] [] (Some (granted (lease_of 1))) ≡ Waiting (Some (lease_of 1)) }
    ensures recorded { answer_of_change (lease_of 1) (recorded 2 (lease_of 1) ∷ []) [] (Some (granted (lease_of 1)))
        ≡ Accepted (lease_of 1) }
    ensures changed { answer_of_change (lease_of 1) [] (changed (lease_of 1) ∷ []) (Some (granted (lease_of 1)))
        ≡ Changed (lease_of 1) 4 6 }
    ensures denied { answer_of_change (lease_of 1) [] [] (Some (denied (lease_of 1))) ≡ Denied (lease_of 1) owned }
{}

/// Where several would do, the first counts: a change that is recorded is accepted, whatever else is told of its lease.
pub fn a_recorded_change_is_accepted()
    ensures { answer_of_change (lease_of 1) (recorded 2 (lease_of 1) ∷ []) (changed (lease_of 1) ∷ [])
        (Some (denied (lease_of 1))) ≡ Accepted (lease_of 1) }
{}

/// What is recorded or noted of another lease, and a commit, are no answer to this one.
pub fn another_lease_is_no_answer()
    ensures recorded { answer_of_change (lease_of 2) (recorded 2 (lease_of 1) ∷ []) [] None
        ≡ Waiting (Some (lease_of 2)) }
    ensures changed { answer_of_change (lease_of 2) [] (changed (lease_of 1) ∷ []) None ≡ Waiting (Some (lease_of 2)) }
    ensures committed { answer_of_change (lease_of 1) (committed 4 (lease_of 1) ∷ []) [] None
        ≡ Waiting (Some (lease_of 1)) }
{}

/// A range that is too far, a last page, and replies that were not taken.
pub fn ranges_and_reconciliations_come_to_their_replies()
    ensures too_far { answer_of_range (Some (RangedReply 1 9 (PastNext 3))) ≡ TooFar 3 }
    ensures no_range { answer_of_range None ≡ Waiting None }
    ensures last_page { answer_of_reconcile (Some (page_of [] false)) ≡ Reconciled }
    ensures no_page { answer_of_reconcile None ≡ Waiting None }
{}
