//! What holds for every legal list of edges on every accepted plan, and for every guard.
//!
//! These functions do nothing and cost nothing. Each states a theorem over the definitions by its
//! contract, and a call of it gives the theorem to the prover. The claims are profile;
//! docs/SAFETY.md explains them.
ghost use Rattle.std.specs.Prelude.{◌≡◌, ◌↔◌, ◌++◌, codes, decimal, ℕ, Some, None, true, false, not, Bool, List, [], Ok, Option, map, filter, is_ok, is_some, slice_get};
ghost use Rattle.std.specs.List.{All, list_all};
ghost use Rattle.std.specs.Option.{option_map_or, option_to_list};
ghost use Rattle.vme_model.specs.Accepted.{IsAccepted};
ghost use Rattle.vme_model.specs.Failing.{all_asked, first_failed, tested, tested_but_full, unmet, unmet_but_full};
ghost use Rattle.vme_model.specs.GrantSafety.{Holds, Travels};
ghost use Rattle.vme_model.specs.Guards.{Guard, holds, conditions, failed};
ghost use Rattle.vme_model.specs.History.{drive, has_strobed, served_since_request};
ghost use Rattle.vme_model.specs.Locality.{AreWellFormed, IsLocal};
ghost use Rattle.vme_model.specs.Numbered.{Numbered, IsNth, edges_in, numbered, served_since, since, strobed_at};
ghost use Rattle.vme_model.specs.Open.{open_edges, showing, IsAllThatIsAllowed};
ghost use Rattle.vme_model.specs.Plan.{Plan};
ghost use Rattle.vme_model.specs.Readings.{Readings};
ghost use Rattle.vme_model.specs.Rules.{failing, guard, rule};
ghost use Rattle.vme_model.specs.Safe.{IsOrderly, IsSafe};
ghost use Rattle.vme_model.specs.Sentences.{rule_name};
ghost use Rattle.vme_model.specs.Settling.{settling, settling_guard, unsettled};
ghost use Rattle.vme_model.specs.Signals.{has_wire, is_of, is_slot, wire_number};
ghost use Rattle.vme_model.specs.Sources.{has_condition, rule_of, settling_of};
ghost use Rattle.vme_model.specs.Stands.{grant_at, holder};
ghost use Rattle.vme_model.specs.Text.{HasWord, all_wires};
ghost use Rattle.vme_model.specs.Verdict.{IsLegal, State, kept, verdict, verdict_but_full};
ghost use Rattle.vme_model.specs.Why.{why};
ghost use Rattle.vme_model.specs.declared.boards.IrqKind.{IrqKind};
ghost use Rattle.vme_model.specs.declared.signals.Cycle.{Cycle};
ghost use Rattle.vme_model.specs.declared.signals.Cycle.TheVariants.{Access};
ghost use Rattle.vme_model.specs.declared.signals.Driver.{Driver};
ghost use Rattle.vme_model.specs.declared.signals.Driver.TheVariants.{Controller, Slot};
ghost use Rattle.vme_model.specs.declared.signals.Edge.{Edge};
ghost use Rattle.vme_model.specs.declared.signals.Part.{Part};
ghost use Rattle.vme_model.specs.declared.signals.Version.TheVariants.{One, Two};
ghost use Rattle.vme_model.specs.declared.signals.Version.{Version};
ghost use Rattle.vme_model.specs.declared.signals.Wire.{Wire};

/// Every legal list is safe. After each edge at most one grant travels, and none while BBSY* is
/// low; at most one board holds the bus; and at most one board drives the address lines. Each board
/// that took the bus, or answered an acknowledge, was entitled to. Each ROAK request was answered
/// at most once, and exactly once before it was released.
pub fn legal_list_is_safe()
    ensures { (version : Version) (p : Plan) (h : List Edge) →
        IsAccepted p → IsLegal version p h → IsSafe p h }
{}

/// Every legal list is orderly. After each edge the low grant segments are one run of one chain,
/// which begins with the controller's segment while BBSY* is high. The bus is released only if no
/// segment is low. No grant is lost. A board drives the address lines without the bus only while
/// its AS* is low. No cycle has two answers.
pub fn legal_list_is_orderly()
    ensures { (version : Version) (p : Plan) (h : List Edge) →
        IsAccepted p → IsLegal version p h → IsOrderly version p h }
{}

/// The second version of the rules allows everything that the first one allows.
pub fn first_version_is_within_second()
    ensures { (p : Plan) (h : List Edge) → IsAccepted p → IsLegal One p h → IsLegal Two p h }
{}

/// The verdict on an edge is the same after any two histories in which its driver saw the same.
/// This leaves out a full trace, and the edges for which a settling rule looks at other boards'
/// wires.
pub fn verdict_is_local()
    ensures well_formed { (version : Version) (p : Plan) (h k : List Edge) (e : Edge) →
        IsAccepted p → AreWellFormed h → AreWellFormed k → IsLocal version p h k e }
    ensures legal { (version : Version) (p : Plan) (h k : List Edge) (e : Edge) →
        IsAccepted p → IsLegal version p h → IsLegal version p k → IsLocal version p h k e }
{}

/// A guard holds exactly if all its conditions hold, and exactly if none of them fails. The
/// conditions that fail are, in the guard's order, those that do not hold.
pub fn guard_fails_by_its_conditions()
    ensures all { (g : Guard) → holds g ≡ list_all (λ c. c.holds) (conditions g) }
    ensures none { (g : Guard) → (failed g ≡ []) ↔ (holds g ≡ true) }
    ensures names { (g : Guard) → failed g
        ≡ map (λ c. c.condition) (filter (λ c. not c.holds) (conditions g)) }
{}

/// The guard of the rule that names an edge holds exactly if none of the rule's conditions fails,
/// and the guard of the settling rule exactly if none of that rule's conditions fails.
pub fn rule_fails_by_its_conditions()
    ensures rule { (version : Version) (r : Readings) (w : Wire) (fall : Bool) (v : Option Cycle) →
        (failing version r w fall v ≡ []) ↔ ((rule version r w fall v).1 ≡ true) }
    ensures settling { (version : Version) (p : Plan) (h : List Edge) (w : Wire) (fall : Bool) →
        (unsettled version p h w fall ≡ []) ↔ ((settling version p h w fall).1 ≡ true) }
{}

/// An edge fails no condition exactly if it is accepted; this holds with E5 and without it. An edge
/// that is refused fails those conditions that fail in the first guard that does not hold: what E1
/// asks for, then E2, its rule, its settling rule, E5. Of all conditions that are tested for the
/// edge, the same ones fail.
pub fn edge_fails_where_it_is_refused()
    ensures none { (b : State) (e : Edge) → (unmet b e ≡ []) ↔ (verdict b e ≡ Ok tt) }
    ensures none_but_full { (version : Version) (p : Plan) (h : List Edge) (e : Edge) →
        (unmet_but_full version p h e ≡ []) ↔ (verdict_but_full version p h e ≡ Ok tt) }
    ensures first { (b : State) (e : Edge) → unmet b e ≡ first_failed (all_asked b e) }
    ensures tested { (b : State) (e : Edge) → failed (tested b e) ≡ unmet b e }
    ensures tested_but_full { (version : Version) (p : Plan) (h : List Edge) (e : Edge) →
        failed (tested_but_full version p h e) ≡ unmet_but_full version p h e }
{}

/// The open edges of a driver are all its edges that would be accepted after the history, and no
/// others.
pub fn open_edges_are_all_that_is_allowed()
    ensures { (b : State) (d : Driver) → IsAllThatIsAllowed b d (open_edges b d) }
{}

/// The numbered edges of a trace are the accepted ones, and each is the edge of the trace that has
/// its number.
pub fn numbered_edges_are_kept()
    ensures kept { (b : State) (es : List Edge) → b.history ≡ [] →
        edges_in (numbered b es) ≡ (kept b es).history }
    ensures numbers { (b : State) (es : List Edge) → All (λ m. IsNth es m.0 m.1) (numbered b es) }
{}

/// A wire that is low has an edge since which it is low. An interrupt request was served, and a
/// data strobe fell in this cycle, exactly if an edge is reported for it.
pub fn what_is_so_has_its_edge()
    ensures low { (k : Numbered) (d : Driver) (w : Wire) →
        drive (edges_in k) d w ≡ true → is_some (since k d w) ≡ true }
    ensures served { (p : Plan) (k : Numbered) (d : Driver) (kind : IrqKind) →
        is_some (served_since p k d kind) ≡ served_since_request p (edges_in k) d kind }
    ensures strobed { (k : Numbered) (d : Driver) →
        is_some (strobed_at k d) ≡ has_strobed (edges_in k) d }
{}

/// An edge is accepted exactly if every condition that is reported for it holds.
pub fn why_states_the_verdict()
    ensures { (b : State) (k : Numbered) (e : Edge) →
        is_ok (verdict b e) ≡ list_all (λ r. r.tested.holds) (why b k e) }
{}

/// The slot that is reported as the holder holds the bus. The grant that is reported stands at its
/// slot, which has neither passed it on nor taken it. If no grant is reported, none stands
/// anywhere.
pub fn bus_stands_where_the_block_says()
    ensures holder { (p : Plan) (h : List Edge) (s : ℕ) → holder p h ≡ Some s → Holds h s }
    ensures grant { (p : Plan) (h : List Edge) (n s : ℕ) →
        grant_at p h ≡ Some (n, s) → Travels p h n s }
    ensures none { (p : Plan) (h : List Edge) →
        grant_at p h ≡ None → (n s : ℕ) → Travels p h n s → ⊥ }
{}

/// Either all accesses of a driver are open or none is, so one word reports them.
pub fn accesses_are_open_alike()
    ensures { (b : State) (d : Driver) (s t : ℕ) → is_slot s ≡ true → is_slot t ≡ true →
        verdict b (showing d (Access s)) ≡ verdict b (showing d (Access t)) }
{}

/// A wire is of one part, and of no other. A wire that the controller has is of the controller's
/// part, and a wire that a board has is not.
pub fn wires_are_of_one_part()
    ensures apart { (p q : Part) (w : Wire) → is_of p w ≡ true → is_of q w ≡ true → p ≡ q }
    ensures controllers { (w : Wire) → has_wire Controller w ≡ true →
        is_of Part.Controller w ≡ true }
    ensures boards { (s : ℕ) (w : Wire) → has_wire (Slot s) w ≡ true →
        is_of Part.Controller w ≡ false }
{}

/// A wire's number is its place among all wires, so no two wires have one number.
pub fn wires_stand_at_their_numbers()
    ensures { (w : Wire) → HasWord w → slice_get all_wires (wire_number w) ≡ Some w }
{}

/// The table of the sources has the rules of the table of guards: each edge has the rule of the
/// same number there, and the settling rule of the same number.
pub fn sources_have_the_rules_of_the_guards()
    ensures edge { (version : Version) (r : Readings) (w : Wire) (fall : Bool) (v : Option Cycle) →
        rule_name (rule_of w fall) ≡ codes "G" ++ decimal (guard version r w fall v).0 }
    ensures settling { (version : Version) (p : Plan) (h : List Edge) (w : Wire) (fall : Bool) →
        All (λ r. rule_name r
        ≡ codes "S" ++ decimal (settling_guard version p h w fall).0)
        (option_to_list (settling_of w fall)) }
{}

/// Every condition of a guard is in the table of the sources, as one of the rule of its edge, and
/// that of a settling guard as one of the settling rule.
pub fn every_condition_has_a_source()
    ensures edge { (version : Version) (r : Readings) (w : Wire) (fall : Bool) (v : Option Cycle) →
        list_all (λ t. has_condition (rule_of w fall) t.condition)
        (conditions (guard version r w fall v).1) ≡ true }
    ensures settling { (version : Version) (p : Plan) (h : List Edge) (w : Wire) (fall : Bool) →
        list_all (λ t. option_map_or (λ r. has_condition r t.condition) (settling_of w fall) false)
        (conditions (settling_guard version p h w fall).1) ≡ true }
{}
