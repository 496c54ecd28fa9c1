//! The invariant of processes of stack code (`IsGood`): each step preserves it, and good processes account for their
//! ports.
//!
//! The language of stack code (`fm_proc_language`) says what each process does, also of those that nobody would write;
//! for these ports may be lost or come twice. `specs/Good` says which processes make sense: their frames stand as the
//! kinds of their code tell (`fm_code_preserves`), and their port words name slots in use, each once (`IsUsed` of
//! `specs/Moves`). Where processes are good the language is lawful (`fm_net_invariant`), whatever they ask for.
//!
//! What takes ports out of slots, brings ports to them or lets ports go is a move (`Moves`): the words then name slots
//! in use again, and each port stands there as often as it did, with those that came in and without those that went
//! out. `specs/Held` tells this of the words of one frame, a test of whose numbers tells which are port words, and of
//! what goes over to children and comes back from them.
//!
//! Each function here has an empty body: its contract is a law.
#![tactic(auto)]

ghost use Rattle.std.specs.Prelude.{◌≡◌, ℕ, ◌+◌, ◌≤◌, ◌<◌, ℤ, Bool, true, false, Option, Some, List, [], ◌++◌, length};
ghost use Rattle.std.specs.List.{AllByRecursion, filter_map};
ghost use Rattle.fm_base.specs.declared.port.PortValue.{PortValue};
ghost use Rattle.fm_base.specs.Channels.{Message, fits_limits, message_ports};
ghost use Rattle.fm_code.specs.declared.ask.Operand as declared_operand;
ghost use Rattle.fm_code.specs.declared.body.Back as declared_back;
ghost use Rattle.fm_code.specs.declared.code.Formal as declared_formal;
ghost use Rattle.fm_code.specs.Passing.{live, ports_in};
ghost use Rattle.fm_code_kinds.specs.declared.sorts.Cell as declared_cell;
ghost use Rattle.fm_code_kinds.specs.Shapes.{words_of};
ghost use Rattle.fm_code_kinds.specs.declared.sorts.Shapes as kinds_of_units;
ghost use Rattle.fm_code_preserves.specs.Rooms.{AreLaid, is_port_word, port_spans};
ghost use Rattle.fm_code_preserves.specs.Weights.{IsParted, weight};
ghost use Rattle.fm_net.specs.Lawful.{IsLawfulLanguage};
ghost use Rattle.fm_net.specs.Correspondence.{AreAlike};
ghost use Rattle.fm_net_invariant.specs.Good.{IsBare, IsLawfulWhere, good_language};
ghost use Rattle.fm_proc_language.specs.Slots.{Slots, all_drained, all_left, all_put, no_slots, vacated};
ghost use Rattle.fm_proc_language.specs.Frames.{Held, Joined, all_exchanged, all_given, all_stored, kept, message_from};
ghost use Rattle.fm_proc_language.specs.Processes.{limits_of, with_status};
ghost use Rattle.fm_proc_language.specs.Processes.{code_language};
ghost use Rattle.fm_proc_invariant.specs.Moves.{IsUsed, Moves};
ghost use Rattle.fm_proc_invariant.specs.Held.{BackIsMasked, BothUsed, Dropped, Gives, GoesOver, HeldMoves, KeepsSome, MaySend, MayStore, UsedBy, with_others};
ghost use Rattle.fm_proc_invariant.specs.Good.{IsGood};

/// Words that are let go leave their slots, whose ports go out; and ports that come to slots are named by the words
/// that they are given. Nothing is in use where there are no slots.
pub fn slots_account()
    ensures leave { (s : Slots) (drops words rest : List ℤ) → IsParted words drops rest
        → IsUsed s words → Moves s words (all_left s drops) rest [] (vacated s drops) }
    ensures drain { (s : Slots) (drops words rest : List ℤ) → IsParted words drops rest
        → IsUsed s words → Moves s words (all_drained s drops) rest [] (vacated s drops) }
    ensures come { (ports : List (Option PortValue)) (s : Slots) (words : List ℤ) → IsUsed s words
        → Moves s words (all_put s ports).1 (live (all_put s ports).0 ++ words) (filter_map (λ p. p) ports) [] }
    ensures none { IsUsed no_slots [] }
{}

/// Ports that are put at port words of a frame come in, and those that stood there go out.
pub fn exchange_accounts()
    ensures { (mask : ℕ → Bool) (others : List ℤ) (ports : List (Option PortValue)) (h : Held) (first : ℕ)
        → first + length ports ≤ length h.words → ((k : ℕ) → first ≤ k → k < first + length ports → mask k ≡ true)
        → UsedBy mask others h
        → HeldMoves mask others h (all_exchanged h first ports).0 (filter_map (λ p. p) ports)
        (all_exchanged h first ports).1 }
{}

/// The ports of a message that is sent go out; those of one that is received within its limits come in, and what stood
/// in their places goes out. The word of IOSTAT is no port word.
pub fn messages_account()
    ensures sent { (mask : ℕ → Bool) (others : List ℤ) (items : List declared_operand.Operand) (h : Held)
        → AllByRecursion (MaySend mask (length h.words)) items
        → UsedBy mask others h
        → HeldMoves mask others h (message_from h items).0 [] (message_ports (message_from h items).1) }
    ensures received { (mask : ℕ → Bool) (others : List ℤ) (items : List declared_operand.Operand) (m : Message)
        (h : Held) → AllByRecursion (MayStore mask (length h.words)) items
        → fits_limits (limits_of items) m ≡ true → UsedBy mask others h
        → HeldMoves mask others h (all_stored h items m).0 (message_ports m) (all_stored h items m).1 }
    ensures status { (mask : ℕ → Bool) (others : List ℤ) (h : Held) (status : Option ℕ) (n : ℤ)
        → ((k : ℕ) → status ≡ Some k → (k < length h.words) × (mask k ≡ false))
        → HeldMoves mask others h (with_status h status n) [] [] }
{}

/// The ports of a start go out of the slots of the parent, and come into those of the child.
pub fn starts_account()
    ensures { (cells : List declared_cell.Cell) (words : List ℤ) (from to : Slots) (rest low : List ℤ)
        → AreLaid 0 cells → 0 + words_of cells ≡ length words
        → IsUsed from (ports_in (port_spans cells) words ++ rest)
        → IsUsed to low → GoesOver (port_spans cells) 0 words from to rest low }
{}

/// What a child gives back goes out of its slots and comes into those of the parent, or is let go, as is all that the
/// child has still.
pub fn joins_account()
    ensures given { (mine theirs : ℕ → Bool) (my_others their_others : List ℤ) (backs : List declared_back.Back)
        (j : Joined) → AllByRecursion (BackIsMasked mine theirs (length j.mine.words) (length j.theirs.words)) backs
        → BothUsed mine theirs my_others their_others j
        → Gives mine theirs my_others their_others j (all_given j backs) }
    ensures dropped { (mine theirs : ℕ → Bool) (my_others their_others : List ℤ) (j : Joined) (words : List ℤ)
        → ((g : ℤ → ℕ) → weight g words ≡ weight g (with_others theirs j.theirs.words their_others))
        → BothUsed mine theirs my_others their_others j
        → Dropped mine theirs my_others their_others j (vacated j.theirs.slots words) }
{}

/// Of a frame that ends some port words stay, and the others are let go.
pub fn ends_account()
    ensures { (cells : List declared_cell.Cell) (formals : List declared_formal.Formal) (words : List ℤ)
        → AreLaid 0 cells → words_of cells ≤ length words
        → KeepsSome (is_port_word cells) words (kept formals (port_spans cells) words) }
{}

/// A good process stays good and accounts for its ports, for each reply that a machine gives: so do the children that
/// it starts.
pub fn good_processes_account()
    ensures { (shapes : kinds_of_units.Shapes) → IsLawfulWhere code_language (IsGood shapes) }
{}

/// So the good processes of stack code are a lawful language, whose machine does what that of all of them does.
pub fn good_processes_are_lawful()
    ensures lawful { (shapes : kinds_of_units.Shapes) (law : IsLawfulWhere code_language (IsGood shapes))
        → IsLawfulLanguage (good_language code_language (IsGood shapes) law) }
    ensures alike { (shapes : kinds_of_units.Shapes) (law : IsLawfulWhere code_language (IsGood shapes))
        → AreAlike (IsBare code_language (IsGood shapes)) (λ s. Unit {0})
        (good_language code_language (IsGood shapes) law) code_language }
{}
