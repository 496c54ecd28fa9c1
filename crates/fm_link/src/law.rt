//! The laws of links: what arrives is what was pushed, in order, whatever the network does.
//!
//! Each function here has an empty body: its contract is a law.

ghost use Rattle.std.specs.Prelude.{◌≡◌, ◌≤◌, ◌∷◌, ◌++◌, ℕ, [], List, Some, None, length};
ghost use Rattle.fm_link.specs.declared.load.Load.{Load};
ghost use Rattle.fm_link.specs.declared.load.Packet.{Packet};
ghost use Rattle.fm_link.specs.Ends.{Outgoing, Incoming, fresh_outgoing, fresh_incoming, with_load, packet_of, acked_by, with_packet, first_of, behind_first};
ghost use Rattle.fm_link.specs.Link.{LinkEvent, link_after, link_lists, IsPrefixOf, HoldTheRest, AreEnds, IsPacketOf, IsAckOf, unread};

/// Whatever arrives, and how often, and in what order: what has arrived is a prefix of what was pushed, what
/// was taken is a prefix of what has arrived, no more is acknowledged than has arrived, and the two ends hold
/// the rest.
pub fn in_order()
    ensures arrived { (events : List LinkEvent) → IsPrefixOf (link_lists events).arrived (link_lists events).pushed }
    ensures taken { (events : List LinkEvent) → IsPrefixOf (link_lists events).taken (link_lists events).arrived }
    ensures acknowledged { (events : List LinkEvent) →
        (link_after events).outgoing.acknowledged ≤ length (link_lists events).arrived }
    ensures rest { (events : List LinkEvent) → HoldTheRest (link_after events) }
{}

/// What the reader hasn't taken (`unread`) is changed by a push, which puts a load last, and by a taking, which
/// removes the first one, and by nothing else; and what is on its way stays true of the two ends.
pub fn nothing_lost()
    ensures first { AreEnds fresh_outgoing fresh_incoming }
    ensures nothing { unread fresh_outgoing fresh_incoming ≡ [] }
    ensures push { (o : Outgoing) (i : Incoming) (x : Load) → AreEnds o i →
        AreEnds (with_load o x) i × (unread (with_load o x) i ≡ unread o i ++ x ∷ []) }
    ensures push_packet { (o : Outgoing) (p : Packet) (x : Load) → IsPacketOf o p → IsPacketOf (with_load o x) p }
    ensures send { (o : Outgoing) (k : ℕ) (p : Packet) → packet_of o k ≡ Some p → IsPacketOf o p }
    ensures arrive { (o : Outgoing) (i : Incoming) (p : Packet) → AreEnds o i → IsPacketOf o p →
        AreEnds o (with_packet i p) × (unread o (with_packet i p) ≡ unread o i) }
    ensures arrive_ack { (i : Incoming) (p : Packet) (next : ℕ) → IsAckOf i next → IsAckOf (with_packet i p) next }
    ensures acked { (o : Outgoing) (i : Incoming) (next : ℕ) → AreEnds o i → IsAckOf i next →
        AreEnds (acked_by o next) i × (unread (acked_by o next) i ≡ unread o i) }
    ensures acked_packet { (o : Outgoing) (p : Packet) (next : ℕ) → IsPacketOf o p → IsPacketOf (acked_by o next) p }
    ensures take { (o : Outgoing) (i : Incoming) (x : Load) → AreEnds o i → first_of i ≡ Some x →
        AreEnds o (behind_first i) × (unread o i ≡ x ∷ unread o (behind_first i)) }
{}
