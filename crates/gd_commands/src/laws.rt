//! What holds of words.

ghost use Rattle.std.specs.Prelude.{◌≡◌, List, Some};
ghost use Rattle.clap.specs.Words.{Text};
ghost use Rattle.gd_asked.specs.InRange.{IsInRange};
ghost use Rattle.gd_asked.specs.declared.command.Command.{Command};
ghost use Rattle.gd_commands.specs.Commands.{command_of};
ghost use Rattle.gd_commands.specs.Plain.{IsPlain, Plain, plain_command, plain_words};
ghost use Rattle.gd_commands.specs.Rows.{AreMet, churn_rows, node_rows, other_rows, rehearse_rows, replay_rows};

/// Words in the plain form are taken, and ask for the command that their values give.
pub fn plain_words_are_taken()
    ensures { (plain : Plain) → IsPlain plain
        → command_of (plain_words plain) ≡ Some (plain_command plain) }
{}

/// What words ask for is in its ranges.
pub fn what_is_asked_is_in_range()
    ensures { (words : List Text) (command : Command) → command_of words ≡ Some command
        → IsInRange command }
{}

/// Words that are written out, each with what it asks for.
pub fn written_words_are_met()
    ensures replay { AreMet replay_rows }
    ensures node { AreMet node_rows }
    ensures rehearse { AreMet rehearse_rows }
    ensures churn { AreMet churn_rows }
    ensures others { AreMet other_rows }
{}
