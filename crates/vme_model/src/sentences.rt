//! The rules in words: for each its name, its edge, and a sentence.
ghost use Rattle.std.specs.Prelude.{◌≡◌, ◌≤◌, find, length};
ghost use Rattle.std.specs.Str.{bytes_eq};
ghost use Rattle.vme_model.specs.Sentences.{board_sentence, interrupters_sentence, other_sentence, rule_edge, rule_name, rule_named, sentence};

/// A rule by its name: what refuses an edge. docs/RULES.md has the rules. Source: profile (the
/// names).
#[derive(Clone, Copy, PartialEq, Eq, Debug)]
pub enum Rule {
    E1,
    E2,
    G1,
    G2,
    G3,
    G4,
    G5,
    G6,
    G7,
    G8,
    G9,
    G10,
    G11,
    G12,
    G13,
    G14,
    G15,
    G16,
    G17,
    G18,
    G19,
    G20,
    G21,
    G22,
    G23,
    G24,
    G25,
    G26,
    S1,
    S2,
    S3,
    S4,
    E5,
}

impl Rule {
    /// All rules: E1 and E2, the edge rules, the settling rules, and E5.
    pub const ALL: [Rule; 33] = [
        Rule::E1,
        Rule::E2,
        Rule::G1,
        Rule::G2,
        Rule::G3,
        Rule::G4,
        Rule::G5,
        Rule::G6,
        Rule::G7,
        Rule::G8,
        Rule::G9,
        Rule::G10,
        Rule::G11,
        Rule::G12,
        Rule::G13,
        Rule::G14,
        Rule::G15,
        Rule::G16,
        Rule::G17,
        Rule::G18,
        Rule::G19,
        Rule::G20,
        Rule::G21,
        Rule::G22,
        Rule::G23,
        Rule::G24,
        Rule::G25,
        Rule::G26,
        Rule::S1,
        Rule::S2,
        Rule::S3,
        Rule::S4,
        Rule::E5,
    ];

    /// The name of the rule, such as `G13`: at most 3 bytes.
    pub fn name(self) -> &'static str
        ensures text { result.now ≡ rule_name self }
        ensures short { length result.now ≤ 3 }
    {
        match self {
            Rule::E1 => "E1",
            Rule::E2 => "E2",
            Rule::G1 => "G1",
            Rule::G2 => "G2",
            Rule::G3 => "G3",
            Rule::G4 => "G4",
            Rule::G5 => "G5",
            Rule::G6 => "G6",
            Rule::G7 => "G7",
            Rule::G8 => "G8",
            Rule::G9 => "G9",
            Rule::G10 => "G10",
            Rule::G11 => "G11",
            Rule::G12 => "G12",
            Rule::G13 => "G13",
            Rule::G14 => "G14",
            Rule::G15 => "G15",
            Rule::G16 => "G16",
            Rule::G17 => "G17",
            Rule::G18 => "G18",
            Rule::G19 => "G19",
            Rule::G20 => "G20",
            Rule::G21 => "G21",
            Rule::G22 => "G22",
            Rule::G23 => "G23",
            Rule::G24 => "G24",
            Rule::G25 => "G25",
            Rule::G26 => "G26",
            Rule::S1 => "S1",
            Rule::S2 => "S2",
            Rule::S3 => "S3",
            Rule::S4 => "S4",
            Rule::E5 => "E5",
        }
    }

    /// The edge that the rule judges, such as `c bgN-`, with N for a grant's level and v for what
    /// is shown; `any` if the rule judges every edge. At most 8 bytes.
    pub fn edge(self) -> &'static str
        ensures text { result.now ≡ rule_edge self }
        ensures short { length result.now ≤ 8 }
    {
        match self {
            Rule::E1 => "any",
            Rule::E2 => "any",
            Rule::G1 => "c bgN-",
            Rule::G2 => "c bgN+",
            Rule::G3 => "c bclr-",
            Rule::G4 => "c bclr+",
            Rule::G5 => "c iack-",
            Rule::G6 => "c iack+",
            Rule::G7 => "c berr-",
            Rule::G8 => "c berr+",
            Rule::G9 => "br-",
            Rule::G10 => "br+",
            Rule::G11 => "bgout-",
            Rule::G12 => "bgout+",
            Rule::G13 => "bbsy-",
            Rule::G14 => "bbsy+",
            Rule::G15 => "addr- v",
            Rule::G16 => "as-",
            Rule::G17 => "ds-",
            Rule::G18 => "ds+",
            Rule::G19 => "addr+",
            Rule::G20 => "as+",
            Rule::G21 => "irq-",
            Rule::G22 => "irq+",
            Rule::G23 => "iackout-",
            Rule::G24 => "iackout+",
            Rule::G25 => "dtack-",
            Rule::G26 => "dtack+",
            Rule::S1 => "as-",
            Rule::S2 => "c berr-",
            Rule::S3 => "c bgN+",
            Rule::S4 => "c bgN-",
            Rule::E5 => "any",
        }
    }

    /// The rule in a sentence of at most 160 bytes. What holds only in version 2 comes after
    /// `Version 2:`.
    pub fn sentence(self) -> &'static str
        ensures text { result.now ≡ sentence self }
        ensures short { length result.now ≤ 160 }
    {
        match self {
            Rule::E1 => "An edge needs a board in its slot, and the board must have the wire.",
            Rule::E2 => "A wire can only change to its other state.",
            Rule::G1 => {
                "The arbiter grants the level that its policy picks, one grant at a time, while \
                 the bus has no owner."
            }
            Rule::G2 => {
                "A grant stays asserted until a board has taken it. Version 2: it may also time \
                 out, by S3."
            }
            Rule::G3 => {
                "A priority arbiter asks the owner to release the bus for a request of a higher \
                 level."
            }
            Rule::G4 => "Bus clear stays asserted as long as it is due.",
            Rule::G5 => {
                "The daisy-chain driver starts the IACK chain for the acknowledge that is shown."
            }
            Rule::G6 => "The daisy-chain driver keeps the IACK chain low until the cycle ends.",
            Rule::G7 => "The bus timer ends a cycle that nobody answers.",
            Rule::G8 => "A bus error stays asserted until the master has seen it.",
            _ => self.board_sentence(),
        }
    }

    /// The sentence of a rule of requesters or masters.
    fn board_sentence(self) -> &'static str
        ensures text { result.now ≡ board_sentence self }
        ensures short { length result.now ≤ 160 }
    {
        match self {
            Rule::G9 => "The owner of the bus does not request it.",
            Rule::G10 => {
                "A request stays asserted until it is met. Version 2: it may be withdrawn."
            }
            Rule::G11 => "A board that does not want the grant passes it on.",
            Rule::G12 => "A grant chain rises board by board, from its beginning.",
            Rule::G13 => "A requester takes the grant that reaches it.",
            Rule::G14 => {
                "An owner releases the bus once its last transfer has begun and no old grant is \
                 left; with ROR, only while a board requests the bus."
            }
            Rule::G15 => {
                "The owner begins a cycle once the one before has ended; with RWD, only within \
                 its burst; and it acknowledges only what it handles and what is requested."
            }
            Rule::G16 => "The address strobe says that the address is valid.",
            Rule::G17 => {
                "A data strobe waits until the last answer has ended, and falls once in a cycle."
            }
            Rule::G18 => "A data strobe stays asserted until it is answered.",
            Rule::G19 => "The address goes off once its only transfer is over.",
            Rule::G20 => "A cycle ends once its address is off.",
            _ => self.interrupters_sentence(),
        }
    }

    /// The sentence of a rule of interrupters.
    fn interrupters_sentence(self) -> &'static str
        ensures text { result.now ≡ interrupters_sentence self }
        ensures short { length result.now ≤ 160 }
    {
        match self {
            Rule::G21 => "A board may request an interrupt at any time.",
            Rule::G22 => {
                "An interrupt request stays asserted until it is served: with ROAK by an \
                 acknowledge, with RORA by an access."
            }
            Rule::G23 => {
                "A board with nothing pending at the level shown passes the acknowledge on."
            }
            Rule::G24 => "A board keeps the IACK chain low until the cycle ends.",
            Rule::G25 => {
                "The first pending board that an acknowledge reaches answers it, and a board \
                 answers an access to its slot."
            }
            Rule::G26 => "An answer stays asserted until the master has seen it.",
            _ => self.other_sentence(),
        }
    }

    /// The sentence of a settling rule, and of E5.
    fn other_sentence(self) -> &'static str
        ensures text { result.now ≡ other_sentence self }
        ensures short { length result.now ≤ 160 }
    {
        match self {
            Rule::S1 => "No cycle begins until the IACK chain of the last cycle is high again.",
            Rule::S2 => "The bus timer waits until no board is left that can answer.",
            Rule::S3 => "Version 2: a grant times out only when it has passed every board.",
            Rule::S4 => "Version 2: a new grant waits until the last one has risen at every board.",
            Rule::E5 => "A trace has at most 1,048,576 accepted edges.",
            _ => "",
        }
    }

    /// The rule of that name, if there is one.
    pub fn named(words: &[u8]) -> Option<Rule>
        ensures { result ≡ rule_named words.now }
    {
        first_named(&Rule::ALL, words)
    }
}

/// The first of these rules that has that name.
fn first_named(rules: &[Rule], words: &[u8]) -> Option<Rule>
    ensures { result ≡ find (λ r. bytes_eq words.now (rule_name r)) rules.now }
{
    rules
        .iter()
        .copied()
        .find(|rule| words == rule.name().as_bytes())
}
