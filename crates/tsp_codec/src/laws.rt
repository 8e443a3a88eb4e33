//! Theorems about octets and datagrams. Nothing here runs in the program.
ghost use Rattle.std.specs.Prelude.{◌≡◌, ◌↔◌, ℕ, List, length};
ghost use Rattle.tsp_codec.specs.Taken.{taken_of};
ghost use Rattle.tsp_codec.specs.Spelling.{Spells};
ghost use Rattle.tsp_codec.specs.Faults.{IsFault, Reads};
ghost use Rattle.tsp_codec.specs.Canon.{canon, written_size, IsWritable};
ghost use Rattle.tsp_base.specs.declared.datagram.Datagram.{Datagram};
ghost use Rattle.tsp_base.specs.declared.datagram.DecodeFault.{DecodeFault};
ghost use Rattle.tsp_base.specs.declared.datagram.Taken.{Taken};

/// The same octets are at most one datagram.
#[tactic(auto, using(crate::proofs::OneReading::Spells_one))]
pub fn one_datagram()
    ensures { (octets : List ℕ) (d e : Datagram) → Spells octets d → Spells octets e → d ≡ e }
{}

/// The same octets have at most one first fault.
pub fn one_fault()
    ensures { (octets : List ℕ) (f g : DecodeFault) → IsFault octets f → IsFault octets g → f ≡ g }
{}

/// Octets that are a datagram have no fault.
#[tactic(auto, using(crate::proofs::OneReading::Spells_no_fault))]
pub fn spelled_without_fault()
    ensures { (octets : List ℕ) (d : Datagram) (f : DecodeFault) → Spells octets d
        → IsFault octets f → ⊥ }
{}

/// Reading the same octets always gives the same.
#[tactic(auto, using(crate::proofs::OneReading::Reads_one))]
pub fn one_reading()
    ensures { (octets : List ℕ) (t u : Taken) → Reads octets t → Reads octets u → t ≡ u }
{}

/// What is written for a datagram reads as that datagram.
#[tactic(auto, using(crate::proofs::Written::Spells_canon))]
pub fn written_spells()
    ensures { (d : Datagram) → IsWritable d → Spells (canon d) d }
{}

/// A message is written in 76 octets where its name has at most 63, else in 268; a stamp in 28.
#[tactic(auto, using(crate::proofs::Written::length_canon))]
pub fn written_has_its_size()
    ensures { (d : Datagram) → IsWritable d → length (canon d) ≡ written_size d }
{}

/// Any octets either are a datagram or have a first fault, and `taken_of` computes which.
#[tactic(auto, using(crate::proofs::TakenOf::Reads_taken_of_iff))]
pub fn reading_is_computed()
    ensures { (octets : List ℕ) (t : Taken) → (taken_of octets ≡ t) ↔ Reads octets t }
{}

/// A node that takes a written datagram takes the datagram that was written.
#[tactic(auto, using(crate::proofs::TakenOf::taken_of_canon))]
pub fn written_is_taken()
    ensures { (d : Datagram) → IsWritable d → taken_of (canon d) ≡ Taken.Good d }
{}
