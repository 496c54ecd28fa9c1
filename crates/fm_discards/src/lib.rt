//! Laws of discarding ports: in turn, and in any order.
//!
//! The definitions stand in `fm_base`. Each function here has an empty body: its contract is a law.
//! The lemmas behind them, and that each discard leaves one port less to discard, are in `proofs/`.
#![tactic(auto)]

ghost use Rattle.std.specs.Prelude.{◌≡◌, ℕ, List, [], ◌∷◌, ◌++◌};
ghost use Rattle.fm_base.specs.declared.path.ChanName.{ChanName};
ghost use Rattle.fm_base.specs.declared.port.PortValue.{PortValue};
ghost use Rattle.fm_base.specs.declared.port.PortValue.TheVariants.{Writer};
ghost use Rattle.fm_base.specs.Channels.{Chans, shut, all_shed};

/// Ports are discarded in turn: a list of them is discarded in parts, one after the other, and an
/// outport alone closes its writer and no more.
pub fn discards_in_turn()
    ensures nothing { (m : Chans) → all_shed [] m ≡ m }
    ensures parts { (xs ys : List PortValue) (m : Chans) → all_shed (xs ++ ys) m ≡ all_shed ys (all_shed xs m) }
    ensures outport { (c : ChanName) (w : ℕ) (m : Chans) → all_shed (Writer c w ∷ []) m ≡ shut (Writer c w) m }
{}

/// In which order ports are discarded doesn't matter: of two parts either may go first, and so may
/// each port of a list.
pub fn discards_in_any_order()
    ensures parts { (xs ys : List PortValue) (m : Chans) → all_shed (xs ++ ys) m ≡ all_shed (ys ++ xs) m }
    ensures any_first { (xs : List PortValue) (x : PortValue) (ys : List PortValue) (m : Chans) →
        all_shed (xs ++ x ∷ ys) m ≡ all_shed (x ∷ xs ++ ys) m }
{}
