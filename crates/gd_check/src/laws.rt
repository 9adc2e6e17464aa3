//! What the check tells: contracts of functions that do nothing.
ghost use Rattle.std.specs.Prelude.{◌≡◌, ℕ, List, ◌++◌};
ghost use Rattle.std.specs.Int.{w32, to_le_bytes};
ghost use Rattle.gd_check.specs.Checks.{AreBytes, IsBurst, IsCheck, check};

/// The check goes on from piece to piece, however bytes are cut.
#[tactic(auto, using(crate::proofs::Bursts::check_append))]
pub fn checks_go_on()
    ensures { (previous : ℕ) (a b : List ℕ) → IsCheck previous → AreBytes a
        → check (check previous a) b ≡ check previous (a ++ b) }
{}

/// Where two lists of bytes of one length have the same check, and their bits differ only within a row of at most 32,
/// they are the same. So a change of one bit, of one byte or of up to four bytes in a row changes the check.
#[tactic(auto, using(crate::proofs::Bursts::bursts_found))]
pub fn bursts_are_found()
    ensures { (previous : ℕ) (a b : List ℕ) → IsCheck previous → AreBytes a → AreBytes b
        → IsBurst a b → check previous a ≡ check previous b → a ≡ b }
{}

/// Another check of what went before shows in the check of what follows.
#[tactic(auto, using(crate::proofs::Bursts::hang_on))]
pub fn checks_hang_on_those_before()
    ensures { (c d : ℕ) (bytes : List ℕ) → IsCheck c → IsCheck d → AreBytes bytes
        → check c bytes ≡ check d bytes → c ≡ d }
{}

/// Bytes with their check behind them, its lowest byte first, have one check, whichever bytes they are.
pub fn checked_bytes_have_one_check()
    ensures { (a b : List ℕ) → AreBytes a → AreBytes b
        → check 0 (a ++ to_le_bytes w32 (check 0 a)) ≡ check 0 (b ++ to_le_bytes w32 (check 0 b)) }
{}
