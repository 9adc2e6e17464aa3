//! What holds of links, and worked rows of them.

ghost use Rattle.std.specs.List.{AllByRecursion};
ghost use Rattle.std.specs.Prelude.{◌≡◌, ◌||◌, ◌∷◌, [], ℕ, Bool, List, Some, IsTrue, drop, length};
ghost use Rattle.gd_outside.specs.Links.{IsOpen, LinkCalled, StaysOpen};
ghost use Rattle.gd_outside.specs.MemoryLinks.{faults_after, seen_kept, seen_sure_link, with_addresses, with_frame};
ghost use Rattle.gd_outside.specs.MemoryLinks.{without_entry};
ghost use Rattle.gd_outside.specs.Receives.{Answer, IsAnswer, answered};
ghost use Rattle.gd_outside.specs.Seen.{Entry, Packet, SeenLink};
ghost use Rattle.gd_outside.specs.WorkedLinks.{full_link, seen_full_link, untold};

use crate::link::Received;

/// Whatever entries are to come, and however long the buffer is, a receive has an answer, which depends on these alone.
pub fn a_receive_has_one_answer()
    ensures some { (entries : List Entry) (buffer : List ℕ)
        → (a : Answer) × ((length a.buffer ≡ length buffer) × IsAnswer entries a) }
    ensures one { (entries : List Entry) (a : Answer) → IsAnswer entries a
        → (a.received ≡ answered entries (length a.buffer)) × (a.left ≡ drop 1 entries) }
{}

/// What a link was opened with stays, as long as it isn't opened again.
pub fn what_was_opened_stays()
    ensures { (all : List (List ℕ)) (own : ℕ) (a b : SeenLink)
        → IsOpen all own a → StaysOpen a b → IsOpen all own b }
{}

/// Calls one after another are as one call, which failed if one of them did.
pub fn calls_one_after_another()
    ensures { (a b c : SeenLink) (first second : Bool)
        → LinkCalled a b (IsTrue first) → LinkCalled b c (IsTrue second)
        → LinkCalled a c (IsTrue (first || second)) }
{}

/// A link in memory tells all as long as its addresses and frames fit into its room, and nothing from the first that
/// don't on. Addresses take the place of those before.
pub fn the_room_of_a_link()
    ensures full { seen_sure_link full_link ≡ seen_full_link }
    ensures frame { seen_kept (with_frame full_link 1 []) 4 ≡ untold 4 }
    ensures addresses { seen_kept (with_addresses full_link ((5 ∷ 6 ∷ 7 ∷ 8 ∷ []) ∷ []) 1) 4
        ≡ untold 4 }
    ensures later { seen_kept (with_addresses (with_frame full_link 1 []) [] 1) 4 ≡ untold 4 }
    ensures again { (seen_sure_link (with_addresses full_link ((5 ∷ 6 ∷ 7 ∷ []) ∷ []) 1)).addresses
        ≡ Some ((5 ∷ 6 ∷ 7 ∷ []) ∷ []) }
{}

/// Entries are taken in the order in which they were put there, and only a failure is a fault.
pub fn entries_of_a_link_in_memory()
    ensures next { (without_entry full_link).entries ≡ Packet (7 ∷ []) ∷ [] }
    ensures end { (without_entry (without_entry (without_entry full_link))).entries ≡ [] }
    ensures failure { faults_after Received.Failed 4 ≡ 5 }
    ensures others { AllByRecursion (λ received. faults_after received 4 ≡ 4)
        (Received.Datagram 2 ∷ Received.Nothing ∷ Received.TooLong ∷ []) }
{}
