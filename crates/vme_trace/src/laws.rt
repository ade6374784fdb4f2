//! What the definitions of a trace's text say together. The functions are laws: a call costs
//! nothing, and gives the fact to the prover.
ghost use Rattle.std.specs.Prelude.{◌≡◌, ◌↔◌, ℕ, List, Some, All, IsTrue};
ghost use Rattle.vme_model.specs.declared.signals.Version.{Version};
ghost use Rattle.vme_model.specs.declared.signals.Edge.{Edge};
ghost use Rattle.vme_model.specs.Signals.{is_well_formed};
ghost use Rattle.vme_model.specs.Text.{edge_of, Spells, text, read_of};
ghost use Rattle.vme_trace.specs.Texts.{whole};

/// A line is read as an edge exactly if it spells that edge.
pub fn line_reads_as_spelled()
    ensures { (line : List ℕ) (e : Edge) → (edge_of line ≡ Some e) ↔ Spells line e }
{}

/// No line spells two edges.
pub fn line_spells_one_edge()
    ensures { (line : List ℕ) (d e : Edge) → Spells line d → Spells line e → d ≡ e }
{}

/// Each edge has one spelling.
pub fn edge_has_one_spelling()
    ensures { (a b : List ℕ) (e : Edge) → Spells a e → Spells b e → a ≡ b }
{}

/// The text of edges, as `write` writes it, is read as those edges in that version, without a
/// fault.
pub fn text_reads_as_written()
    ensures { (version : Version) (es : List Edge) → All (λ e. IsTrue (is_well_formed e)) es
        → read_of (text version es) ≡ whole version es }
{}
