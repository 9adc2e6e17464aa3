//! What is done for words in the plain form.

ghost use Rattle.std.specs.Prelude.{◌≡◌, ℕ, Bool, List, Option, Some, length};
ghost use Rattle.std.specs.Str.Parse.{digits_value};
ghost use Rattle.gd_boarding.specs.Boarding.{boarded};
ghost use Rattle.gd_commands.specs.Commands.{command_of};
ghost use Rattle.gd_commands.specs.Plain.Plain.{Board, Churn, Node, Rehearse, Rejoin, Replay, Snapshot, Upgrade, View};
ghost use Rattle.gd_commands.specs.Plain.{IsPlain, Plain, format_meant, plain_command, plain_words};
ghost use Rattle.gd_options.specs.declared.format.Format.{Format};
ghost use Rattle.gd_outside.specs.Seen.{Entry};
ghost use Rattle.gd_reference.specs.NodeRun.{end_after, node_effects, node_lines};
ghost use Rattle.gd_reference.specs.Rejoin.{rejoined, rejoined_end};
ghost use Rattle.gd_reference.specs.SlowRun.{upgraded_log};
ghost use Rattle.gd_reference.specs.UptoFault.{replayed_by};
ghost use Rattle.gd_run.specs.Runs.{effects_of, end_of, found_by};
ghost use Rattle.gd_viewing.specs.Snapshotting.{snapshotted};
ghost use Rattle.gd_viewing.specs.Viewing.{view_effects};
ghost use Rattle.gd_worlds.specs.Churn.{churn_effects};
ghost use Rattle.gd_worlds.specs.Rehearsal.{rehearsal_effects, rehearsal_lines};

/// What is done for words in the plain form, and how that ends, is what the command does that their values ask for; so
/// the plain forms of all commands are carried out.
pub fn plain_words_are_carried_out()
    ensures effects { (p : Plain) (contents input : List ℕ) (entries : List Entry) → IsPlain p
        → effects_of (command_of (plain_words p)) contents input entries
        ≡ effects_of (Some (plain_command p)) contents input entries }
    ensures end { (p : Plain) (contents input : List ℕ) → IsPlain p
        → end_of (command_of (plain_words p)) contents input
        ≡ end_of (Some (plain_command p)) contents input }
    ensures replay { (format : Option Format) (counts upto : Bool) (contents input : List ℕ)
        (entries : List Entry)
        → effects_of (command_of (plain_words (Replay format counts upto))) contents input entries
        ≡ replayed_by upto (format_meant format) counts input }
    ensures upgrade { (contents input : List ℕ) (entries : List Entry)
        → effects_of (command_of (plain_words Upgrade)) contents input entries
        ≡ upgraded_log input }
    ensures snapshot { (contents input : List ℕ) (entries : List Entry)
        → effects_of (command_of (plain_words Snapshot)) contents input entries
        ≡ snapshotted input }
    ensures view { (contents input : List ℕ) (entries : List Entry)
        → effects_of (command_of (plain_words View)) contents input entries
        ≡ view_effects input }
    ensures board { (counts : Bool) (contents input : List ℕ) (entries : List Entry)
        → effects_of (command_of (plain_words (Board counts))) contents input entries
        ≡ boarded counts input }
    ensures node { (n s j : List ℕ) (addresses : List (List ℕ)) (contents input : List ℕ)
        (entries : List Entry) → IsPlain (Node n s j addresses)
        → effects_of (command_of (plain_words (Node n s j addresses))) contents input entries
        ≡ node_effects (digits_value 10 s) (length addresses) (digits_value 10 n) entries
        (node_lines input) }
    ensures node_end { (n s j : List ℕ) (addresses : List (List ℕ)) (contents input : List ℕ)
        → IsPlain (Node n s j addresses)
        → end_of (command_of (plain_words (Node n s j addresses))) contents input
        ≡ end_after (node_lines input) }
    ensures rejoin { (n s j : List ℕ) (addresses : List (List ℕ)) (contents input : List ℕ)
        (entries : List Entry) → IsPlain (Rejoin n s j addresses)
        → effects_of (command_of (plain_words (Rejoin n s j addresses))) contents input entries
        ≡ rejoined (digits_value 10 s) (length addresses) (digits_value 10 n)
        (found_by (digits_value 10 n) (digits_value 10 s) addresses contents) entries
        (node_lines input) }
    ensures rejoin_end { (n s j : List ℕ) (addresses : List (List ℕ)) (contents input : List ℕ)
        → IsPlain (Rejoin n s j addresses)
        → end_of (command_of (plain_words (Rejoin n s j addresses))) contents input
        ≡ rejoined_end (found_by (digits_value 10 n) (digits_value 10 s) addresses contents)
        (node_lines input) }
    ensures rehearse { (sites contents input : List ℕ) (entries : List Entry)
        → IsPlain (Rehearse sites)
        → effects_of (command_of (plain_words (Rehearse sites))) contents input entries
        ≡ rehearsal_effects (digits_value 10 sites) (rehearsal_lines input) }
    ensures churn { (seed steps contents input : List ℕ) (entries : List Entry)
        → IsPlain (Churn seed steps)
        → effects_of (command_of (plain_words (Churn seed steps))) contents input entries
        ≡ churn_effects (digits_value 10 seed) (digits_value 10 steps) }
{}
