//! The definitions of `adr_model`, computed on runs small enough to be followed by hand: directories of
//! sets of updates, controllers that act one after the other, what device calls leave of a disk's logs, and
//! whole runs with their answers. Each function's contract is what comes out, worked out by the rules; there
//! is no code. Each wrong definition that was tried is refused by one of them.
#![tactic(auto)]

ghost use Rattle.std.specs.Prelude.{◌≡◌, [], ◌∷◌, true, false, Some, None, map, codes};
ghost use Rattle.adr_model.specs.Directory.{directory};
ghost use Rattle.adr_test_definitions.specs.Exchanges.{a, b};
ghost use Rattle.adr_test_definitions.specs.Rings.{after_rounds, ring_of, stopped, stopped_told, three, three_told};
ghost use Rattle.adr_test_definitions.specs.Runs.{one_user, one_user_shown, name_twice, name_twice_shown, lost_name, lost_name_shown, loop_of_two, loop_of_two_shown, lost_parent, lost_parent_shown, guid_twice, guid_twice_shown, a_group, a_group_shown};
ghost use Rattle.adr_test_definitions.specs.Pulls.{equal_stamps, equal_stamps_told, cut, cut_told, repeated, repeated_told, reordered, reordered_told, older_than_restore, older_than_restore_told, compared_by_seen, compared_by_seen_told};
ghost use Rattle.adr_test_definitions.specs.Conflicts.{one_name_twice, one_name_twice_shown, lost_parent as parent_lost, lost_parent_told, moved_in_a_loop, moved_in_a_loop_shown, two_members, two_members_told, stripped_by_death, stripped_by_death_told, born_twice, born_twice_told};
ghost use Rattle.adr_test_definitions.specs.Lifetimes.{restored, restored_told, put_back, put_back_told, collected_once, collected_once_told, kept_tombstones, late_change, late_change_told, adopted_anew};
ghost use Rattle.adr_test_definitions.specs.RefusedWrites.{with_unit, refusals, by_the_schema, by_the_schema_told, by_the_tree, by_the_tree_told, twice, twice_told};
ghost use Rattle.adr_test_definitions.specs.RefusedReplies.{refused_requests, refused_requests_told, refused_replies, refused_replies_told, at_the_limits, at_the_limits_told};
ghost use Rattle.adr_call.specs.declared.refusal.AdoptRefusal.TheVariants.{IdentifierUsed};
ghost use Rattle.adr_disk.specs.declared.memory.Crash.TheVariants.{Kept, Lost, Torn};
ghost use Rattle.adr_test_definitions.specs.Stops.{stopped_add, stopped_add_told, one_object, two_objects, waiting_plan_told, stopped_start, stopped_start_told, failing_device, failing_device_told, failing_last_sync, failing_last_sync_told, met_later, met_later_told};
ghost use Rattle.adr_test_definitions.specs.Exchanges.{cut_and_cycle, cut_and_cycle_told, delivered_twice, delivered_twice_told, restore, restore_told, rollback, rollback_told, collection, collection_told};
ghost use Rattle.adr_model.specs.Step.{after_lines, answers};
ghost use Rattle.adr_model.specs.World.{empty_world};
ghost use Rattle.adr_test_definitions.specs.Answered.{first_person, first_person_answers, refused_adds, refused_adds_answers};
ghost use Rattle.adr_call.specs.declared.event.Event.TheVariants.{Binds, Uses};
ghost use Rattle.adr_call.specs.declared.event.Use.TheVariants.{Rollback};
ghost use Rattle.adr_call.specs.declared.event.Made.TheVariants.{Ask};
ghost use Rattle.adr_call.specs.declared.refusal.ItemFault.TheVariants.{Schema as BreaksSchema};
ghost use Rattle.adr_call.specs.declared.refusal.TakeRefusal.TheVariants.{BadItem};
ghost use Rattle.adr_values.specs.declared.refusal.SchemaRefusal.TheVariants.{UnknownAttribute};
ghost use Rattle.adr_model.specs.Update.{RowOf};
ghost use Rattle.adr_model.specs.Convergence.{MayHappen};
ghost use Rattle.adr_model.specs.Sound.{IsOfOneChange};
ghost use Rattle.adr_test_definitions.specs.Acting.{first, container};
ghost use Rattle.adr_test_definitions.specs.Runs.{object};
ghost use Rattle.adr_test_definitions.specs.Stops.{new_a, add_container, add_x};
ghost use Rattle.adr_test_definitions.specs.Logs.{with_log, full_log, last_room, last_room_told, no_room_told, log_ends, put_back as log_put_back, asked_for_more, shut_off};
ghost use Rattle.adr_test_definitions.specs.Checkpoints.{in_both, commits_due, commits_due_told, nine_calls, nine_calls_told, states_under, states_told, start_behind, selector_told, gate_told, is_due_behind, is_long_due_behind, is_due_at, log_at, anew, ends_at, full_of_records, added, not_added, stopped_due_add, stopped_due_add_told};
ghost use Rattle.adr_test_definitions.specs.Forged.{on_a_fixed_guid, on_a_fixed_guid_shown, two_classes, dead_with_row_0, keys_taken, refused_with_row_0, two_items, birth_at_1, one_usn_twice};
ghost use Rattle.adr_test_definitions.specs.Exchanges.{asked_once};
ghost use Rattle.adr_test_definitions.specs.Versions.{in_version, one_time_told, no_time_told, other_schema, other_schema_told, revived, revived_told};

/// Small sets of updates, and the directories that they define.
#[tactic(none)]
pub fn small_directories()
    ensures user { directory one_user ≡ one_user_shown }
    ensures twice { directory name_twice ≡ name_twice_shown }
    ensures lost_name { directory lost_name ≡ lost_name_shown }
    ensures looped { directory loop_of_two ≡ loop_of_two_shown }
    ensures lost { directory lost_parent ≡ lost_parent_shown }
    ensures born_twice { directory guid_twice ≡ guid_twice_shown }
    ensures group { directory a_group ≡ a_group_shown }
{}

/// Small runs, and the answers that they get.
#[tactic(none)]
pub fn small_runs()
    ensures first_person { answers empty_world first_person ≡ first_person_answers }
    ensures refused_adds { answers empty_world refused_adds ≡ refused_adds_answers }
{}

/// Pulls: equal stamps, and replies that are cut, repeated, reordered or late.
#[tactic(none)]
pub fn small_pulls()
    ensures equal { equal_stamps ≡ equal_stamps_told }
    ensures cut { cut ≡ cut_told }
    ensures repeated { repeated ≡ repeated_told }
    ensures reordered { reordered ≡ reordered_told }
    ensures late { older_than_restore ≡ older_than_restore_told }
    ensures seen { compared_by_seen ≡ compared_by_seen_told }
{}

/// What two controllers show after they wrote apart.
#[tactic(none)]
pub fn small_conflicts()
    ensures name { one_name_twice ≡ (one_name_twice_shown, one_name_twice_shown) }
    ensures parent { parent_lost ≡ lost_parent_told }
    ensures looped { moved_in_a_loop ≡ (moved_in_a_loop_shown, moved_in_a_loop_shown) }
    ensures members { two_members ≡ two_members_told }
    ensures stripped { stripped_by_death ≡ stripped_by_death_told }
    ensures born_twice { born_twice ≡ born_twice_told }
{}

/// Restores, a database that was put back, and collected objects.
#[tactic(none)]
pub fn small_lifetimes()
    ensures restored { restored ≡ restored_told }
    ensures put_back { put_back ≡ put_back_told }
    ensures collected { collected_once ≡ collected_once_told }
    ensures kept { kept_tombstones ≡ (Some 0, Some 1) }
    ensures late { late_change ≡ late_change_told }
    ensures adopted { adopted_anew ≡ (Some IdentifierUsed, None) }
{}

/// Refused writes.
#[tactic(none)]
pub fn small_refusals()
    ensures schema { with_unit (λ s. refusals s by_the_schema) ≡ by_the_schema_told }
    ensures tree { with_unit (λ s. refusals s by_the_tree) ≡ by_the_tree_told }
    ensures twice { twice ≡ twice_told }
{}

/// Refused requests and replies, and limits.
#[tactic(none)]
pub fn refused_messages()
    ensures requests { refused_requests ≡ refused_requests_told }
    ensures replies { refused_replies ≡ refused_replies_told }
    ensures limits { at_the_limits ≡ at_the_limits_told }
{}

/// An object is added while the disk stops, at each call and in each way: it is there or it isn't.
#[tactic(none)]
pub fn stopped_adds()
    ensures kept0 { answers empty_world (stopped_add 0 Kept) ≡ stopped_add_told one_object }
    ensures kept1 { answers empty_world (stopped_add 1 Kept) ≡ stopped_add_told one_object }
    ensures kept2 { answers empty_world (stopped_add 2 Kept) ≡ stopped_add_told two_objects }
    ensures kept3 { answers empty_world (stopped_add 3 Kept) ≡ stopped_add_told two_objects }
    ensures torn1 { answers empty_world (stopped_add 1 Torn) ≡ stopped_add_told one_object }
    ensures torn2 { answers empty_world (stopped_add 2 Torn) ≡ stopped_add_told two_objects }
    ensures lost2 { answers empty_world (stopped_add 2 Lost) ≡ stopped_add_told one_object }
    ensures lost3 { answers empty_world (stopped_add 3 Lost) ≡ stopped_add_told one_object }
    ensures waits { answers empty_world (stopped_add 4 Kept) ≡ waiting_plan_told }
{}

/// Starts that are stopped, and device calls that fail.
#[tactic(none)]
pub fn failing_disks()
    ensures start { answers empty_world stopped_start ≡ stopped_start_told }
    ensures device { answers empty_world failing_device ≡ failing_device_told }
    ensures sync { answers empty_world failing_last_sync ≡ failing_last_sync_told }
    ensures later { answers empty_world met_later ≡ met_later_told }
{}

/// Runs of two controllers, line by line.
#[tactic(none)]
pub fn small_exchanges()
    ensures cycle { answers empty_world cut_and_cycle ≡ cut_and_cycle_told }
    ensures twice { answers empty_world delivered_twice ≡ delivered_twice_told }
    ensures restore { answers empty_world restore ≡ restore_told }
    ensures rollback { answers empty_world rollback ≡ rollback_told }
    ensures collection { answers empty_world collection ≡ collection_told }
{}

/// Where logs end: of a new disk, of one with no room left, and of one that is put back.
#[tactic(none)]
pub fn logs_end()
    ensures new { log_ends (after_lines empty_world (new_a ∷ [])) ≡ Some (101, 101) }
    ensures grown { log_ends (after_lines empty_world (new_a ∷ add_container (codes "A") 16 (codes "x") ∷ []))
        ≡ Some (284, 284) }
    ensures last { answers (with_log 8589934409) last_room ≡ last_room_told }
    ensures none { answers (with_log 8589934410) last_room ≡ no_room_told }
    ensures put_back { log_ends (after_lines empty_world log_put_back) ≡ Some (467, 467) }
    ensures shut_off { asked_for_more 8589934557 ≡ shut_off }
    ensures unnoted { asked_for_more 8589934558 ≡ full_log (codes "serve") ∷ [] }
{}

/// The nine calls of a commit that is due, under plans, with the live area in the first slot and in the second
/// one: what each call leaves of logs, what it is to the states, and what a start leaves behind a selector or a
/// gate that isn't synced.
#[tactic(none)]
pub fn nine_calls_under_plans()
    ensures pass { in_both commits_due ≡ in_both commits_due_told }
    ensures logs { in_both nine_calls ≡ in_both nine_calls_told }
    ensures states { in_both states_under ≡ in_both states_told }
    ensures selector { in_both (start_behind 4) ≡ in_both selector_told }
    ensures gate { in_both (start_behind 8) ≡ in_both gate_told }
{}

/// When a checkpoint comes: not with one byte less, nor where there is no record, but at once where the area is
/// of an earlier version. The new area stands before the live one where there is room to the byte, else behind.
#[tactic(none)]
pub fn checkpoints_come()
    ensures due { map is_due_behind (65539 ∷ 65540 ∷ []) ≡ false ∷ true ∷ [] }
    ensures no_record { map is_long_due_behind (0 ∷ 35 ∷ []) ≡ false ∷ true ∷ [] }
    ensures version { map is_due_at (2 ∷ 1 ∷ []) ≡ false ∷ true ∷ [] }
    ensures room { anew (log_at false 101 70000) ≡ log_at true 56 101 }
    ensures no_room { anew (log_at false 100 70000) ≡ log_at true 70000 70045 }
    ensures back { anew (log_at true 70000 140000) ≡ log_at false 56 101 }
{}

/// Lines that make a checkpoint: what is written fits to the last byte or isn't written, a log that is full is
/// begun anew where there is room before it, and where the disk stops the object is there or it isn't.
#[tactic(none)]
pub fn checkpointed_lines()
    ensures last { answers (ends_at 8589934364) (add_x ∷ []) ≡ added }
    ensures last_end { log_ends (after_lines (ends_at 8589934364) (add_x ∷ [])) ≡ Some (8589934592, 8589934592) }
    ensures no_room { answers (ends_at 8589934365) (add_x ∷ []) ≡ not_added }
    ensures stays { log_ends (after_lines (ends_at 8589934365) (add_x ∷ [])) ≡ Some (8589934365, 8589934365) }
    ensures full { answers full_of_records (add_x ∷ []) ≡ added }
    ensures begun_anew { log_ends (after_lines full_of_records (add_x ∷ [])) ≡ Some (284, 284) }
    ensures torn { answers (ends_at 70000) (stopped_due_add 3 Torn) ≡ stopped_due_add_told [] }
    ensures lost { answers (ends_at 70000) (stopped_due_add 7 Lost) ≡ stopped_due_add_told [] }
    ensures kept { answers (ends_at 70000) (stopped_due_add 7 Kept) ≡ stopped_due_add_told one_object }
{}

/// Rows that only a forged packet brings.
#[tactic(none)]
pub fn forged_rows()
    ensures fixed { directory on_a_fixed_guid ≡ on_a_fixed_guid_shown }
    ensures one { directory two_classes ≡ container 16 (codes "x") ∷ [] }
    ensures left_out { keys_taken dead_with_row_0
        ≡ RowOf (object 16 161 1) 1 ∷ RowOf (object 16 161 1) 2 ∷ RowOf (object 16 161 1) 3 ∷ [] }
    ensures looked_at { refused_with_row_0 ≡ (None, Some (BadItem 0 (BreaksSchema (UnknownAttribute 0)))) }
{}

/// A database that is put back makes a world unclean; a name without a snapshot doesn't. A write of two
/// items ends at its second USN. A name is bound once. Two changes under one USN are not one change.
#[tactic(none)]
pub fn what_lines_leave()
    ensures unclean { (after_lines empty_world log_put_back).clean ≡ false }
    ensures clean { (after_lines empty_world (new_a ∷ Uses (codes "A") Rollback (codes "s") ∷ [])).clean ≡ true }
    ensures two { (two_items first).usn ≡ 2 }
    ensures bound { MayHappen (after_lines empty_world asked_once) (Binds (codes "B") (Ask (codes "A") 10 2) (codes "q"))
        → ⊥ }
    ensures two_changes { IsOfOneChange one_usn_twice (birth_at_1 16) (birth_at_1 17) → ⊥ }
    ensures unbound { MayHappen (after_lines empty_world asked_once) (Binds (codes "B") (Ask (codes "A") 10 2) (codes "p")) }
{}

/// Times, two schemas, and an object of an image that comes again.
#[tactic(none)]
pub fn small_versions()
    ensures one_time { answers empty_world (in_version 2) ≡ one_time_told }
    ensures no_time { answers empty_world (in_version 1) ≡ no_time_told }
    ensures other_schema { answers empty_world other_schema ≡ other_schema_told }
    ensures revived { answers empty_world revived ≡ revived_told }
{}

/// Rings of three: one round is not enough where the word has to go round, two are; vectors want twice as many.
#[tactic(none)]
pub fn small_rings()
    ensures far { answers empty_world (three b (ring_of 1 ∷ ring_of 1 ∷ []))
        ≡ three_told b (after_rounds 1 false false ∷ after_rounds 1 true true ∷ []) }
    ensures near { answers empty_world (three a (ring_of 1 ∷ [])) ≡ three_told a (after_rounds 1 true false ∷ []) }
    ensures two { answers empty_world (three a (ring_of 2 ∷ [])) ≡ three_told a (after_rounds 2 true true ∷ []) }
    ensures stopped { answers empty_world stopped ≡ stopped_told }
{}
