//! The operations of version three, computed on worked rows.
#![tactic(auto, unfolding(crate::proofs::Computing::computing, crate::specs::WorkedOps::AllShort))]

ghost use Rattle.std.specs.Prelude.{◌≡◌, ◌++◌, [], Ok, Err, IsOk, map};
ghost use Rattle.std.specs.List.{AllByRecursion};
ghost use Rattle.gd_base.specs.declared.fault.LogWhy.TheVariants.{FutureId};
ghost use Rattle.gd_grammar.specs.Drawings.{log, logged};
ghost use Rattle.gd_grammar.specs.FieldBytes.{length_bytes};
ghost use Rattle.gd_grammar.specs.Fields.{length_at};
ghost use Rattle.gd_json.specs.EventsJson.{event_json};
ghost use Rattle.gd_rows.specs.Worked.{fault_at, header_three};
ghost use Rattle.gd_rows.specs.WorkedOps.{AllShort, ChangesRead, connect_changes, connected_log, dash_changes};
ghost use Rattle.gd_rows.specs.WorkedOps.{dashed_log, disband_changes, disbanded_log, joined_events, joined_json};
ghost use Rattle.gd_rows.specs.WorkedOps.{joined_log, joined_logs, lengths, no_lengths, no_styles, own_group_log};
ghost use Rattle.gd_rows.specs.WorkedOps.{reconnect_changes, reconnected_log, reopen_changes, reopened_log};
ghost use Rattle.gd_rows.specs.WorkedOps.{rerank_changes, reranked_log, restore_changes, restored_log, style_changes};
ghost use Rattle.gd_rows.specs.WorkedOps.{styled_log, tag_rows, turned_events, turned_json, turned_log, whole_logs};

/// Each has its bytes, and is read from them. Each is written as one of a line of JSON.
pub fn operations_are_read_and_written()
    ensures read { log turned_log ≡ Ok (header_three, turned_events) }
    ensures alone { AllByRecursion (λ bytes. IsOk (log bytes)) whole_logs }
    ensures written { logged header_three turned_events ≡ turned_log }
    ensures json { map event_json turned_events ≡ turned_json }
{}

/// So it is with those of connectors and looks behind them.
pub fn connectors_and_looks_are_read_and_written()
    ensures read { log joined_log ≡ Ok (header_three, joined_events) }
    ensures written { logged header_three joined_events ≡ joined_log }
    ensures json { map event_json joined_events ≡ turned_json ++ joined_json }
{}

/// Versions one and two have none of them.
pub fn tags_have_their_versions()
    ensures { AllByRecursion (λ r. log r.0 ≡ Err (fault_at r.1 r.2)) tag_rows }
{}

/// Each field of a restore has its range, and its fault.
pub fn a_changed_restore()
    ensures changed { ChangesRead restored_log restore_changes }
    ensures own_group { log own_group_log ≡ Err (fault_at FutureId 61) }
{}

/// A restore that is cut anywhere, or its check, is Short at its end.
pub fn a_cut_restore_is_short()
    ensures { AllShort restored_log 119 }
{}

/// So it is with the fields of the others.
pub fn changed_operations()
    ensures disband { ChangesRead disbanded_log disband_changes }
    ensures rerank { ChangesRead reranked_log rerank_changes }
    ensures reopen { ChangesRead reopened_log reopen_changes }
{}

/// And with those of connectors and looks.
pub fn changed_connectors_and_looks()
    ensures alone { AllByRecursion (λ bytes. IsOk (log bytes)) joined_logs }
    ensures connect { ChangesRead connected_log connect_changes }
    ensures reconnect { ChangesRead reconnected_log reconnect_changes }
    ensures dash { ChangesRead dashed_log dash_changes }
    ensures style { ChangesRead styled_log style_changes }
{}

/// A style sets a look, and not a stroke, a fill or a width alone.
pub fn no_style_is_read()
    ensures { AllByRecursion (λ r. log r.0 ≡ Err (fault_at r.1 r.2)) no_styles }
{}

/// The length of a label has one byte up to 200, and two up to 500.
pub fn lengths_of_labels_are_read_and_written()
    ensures written { AllByRecursion (λ r. length_bytes r.0 ≡ r.1) lengths }
    ensures read { AllByRecursion (λ r. length_at r.1 ≡ Ok (r.0, [])) lengths }
    ensures none { AllByRecursion (λ r. length_at r.0 ≡ Err r.1) no_lengths }
{}
