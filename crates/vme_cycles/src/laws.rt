//! What holds of the cycles and tenures of every legal list.
//!
//! The functions do nothing: each is a theorem over the definitions, stated by its contract. There
//! k numbers the edges before e.
ghost use Rattle.std.specs.Prelude.{◌≡◌, ◌≢◌, ◌∷◌, ℕ, None, Some, false, true};
ghost use Rattle.vme_model.specs.declared.deliveries.Delivery.{Delivery};
ghost use Rattle.vme_model.specs.declared.signals.Edge.{Edge};
ghost use Rattle.vme_model.specs.declared.signals.Version.{Version};
ghost use Rattle.vme_model.specs.declared.signals.Wire.TheVariants.{AddressStrobe, Bbsy, Br, Irq};
ghost use Rattle.vme_model.specs.Accepted.{IsAccepted};
ghost use Rattle.vme_model.specs.Deliveries.{delivery};
ghost use Rattle.vme_model.specs.GrantSafety.{is_fall_on};
ghost use Rattle.vme_model.specs.Numbered.{Numbered, edges_in};
ghost use Rattle.vme_model.specs.Plan.{Plan};
ghost use Rattle.vme_model.specs.Verdict.{IsLegal};
ghost use Rattle.vme_cycles.specs.Transactions.{IsFallAt, answered, cycle_of, is_answer, is_rise_on, last_on, request_of, tenure_of};

/// No two cycles overlap: when one begins, none is under way.
pub fn a_cycle_begins_alone()
    ensures { (v : Version) (p : Plan) (k : Numbered) (n : ℕ) (e : Edge) →
        IsAccepted p → IsLegal v p (edges_in ((n, e) ∷ k)) → is_fall_on AddressStrobe e ≡ true
        → cycle_of k ≡ None }
{}

/// A cycle ends by its own board: an `as+` is of the board whose cycle is under way.
pub fn a_cycle_ends_by_its_board()
    ensures { (v : Version) (p : Plan) (k : Numbered) (n : ℕ) (e : Edge) →
        IsAccepted p → IsLegal v p (edges_in ((n, e) ∷ k)) → is_rise_on AddressStrobe e ≡ true
        → cycle_of k ≡ Some e.driver }
{}

/// A cycle ends only if it was answered.
pub fn a_cycle_ends_answered()
    ensures { (v : Version) (p : Plan) (k : Numbered) (n : ℕ) (e : Edge) →
        IsAccepted p → IsLegal v p (edges_in ((n, e) ∷ k)) → is_rise_on AddressStrobe e ≡ true
        → answered p k ≢ None }
{}

/// A cycle is answered once: an answer comes while a cycle is under way that has none yet.
pub fn a_cycle_is_answered_once()
    ensures { (v : Version) (p : Plan) (k : Numbered) (n : ℕ) (e : Edge) →
        IsAccepted p → IsLegal v p (edges_in ((n, e) ∷ k)) → is_answer e ≡ true
        → (cycle_of k ≢ None) × (answered p k ≡ None) }
{}

/// No two tenures overlap: when one begins, none is under way.
pub fn a_tenure_begins_alone()
    ensures { (v : Version) (p : Plan) (k : Numbered) (n : ℕ) (e : Edge) →
        IsAccepted p → IsLegal v p (edges_in ((n, e) ∷ k)) → is_fall_on Bbsy e ≡ true
        → tenure_of p k ≡ None }
{}

/// A tenure ends by its own board: a `bbsy+` is of the board whose tenure is under way.
pub fn a_tenure_ends_by_its_board()
    ensures { (v : Version) (p : Plan) (k : Numbered) (n : ℕ) (e : Edge) →
        IsAccepted p → IsLegal v p (edges_in ((n, e) ∷ k)) → is_rise_on Bbsy e ≡ true
        → tenure_of p k ≡ Some e.driver }
{}

/// A line begins with a fall: at a rise, the last edge on the driver's wire is its fall.
pub fn a_line_begins_with_a_fall()
    ensures { (v : Version) (p : Plan) (k : Numbered) (n : ℕ) (e : Edge) →
        IsLegal v p (edges_in ((n, e) ∷ k)) → e.fall ≡ false
        → IsFallAt k e.driver e.wire (last_on k e.driver e.wire) }
{}

/// The request that a `bbsy-` meets is a `br-` of its board.
pub fn a_tenure_meets_a_request()
    ensures { (v : Version) (p : Plan) (k : Numbered) (n : ℕ) (e : Edge) →
        IsLegal v p (edges_in ((n, e) ∷ k)) → is_fall_on Bbsy e ≡ true
        → IsFallAt k e.driver Br (request_of k e) }
{}

/// The request that a status byte meets is an `irq-` of its board.
pub fn a_status_meets_a_request()
    ensures { (v : Version) (p : Plan) (k : Numbered) (n : ℕ) (e : Edge) (sent : Delivery) →
        IsLegal v p (edges_in ((n, e) ∷ k)) → delivery p (edges_in k) e ≡ Some sent
        → IsFallAt k e.driver Irq (request_of k e) }
{}
