//! What holds for edges in one word, for answers as numbers, for draws on all wires, and for the
//! conditions that an edge fails.
//!
//! The functions do nothing and cost nothing: each states a theorem by its contract.
ghost use Rattle.vmebus_c.specs.Laws.{AtMostFiveFail, DrawsTheWalk, MakesTheWalk, NumbersSpellAnswers, WordsNameEdges};

use vme_seeds::laws::{a_draw_gives_one_of_its_edges, draws_follow_the_walk, nothing_is_left_out};

/// An edge that some backplane can have is the one that the four bytes of its word name.
pub fn words_name_edges()
    ensures { WordsNameEdges }
{}

/// What a step returns and delivers is spelled as `replay` spells the answer.
pub fn numbers_spell_answers()
    ensures { NumbersSpellAnswers }
{}

/// On all wires the library draws the edges that `drive --seed` makes.
pub fn all_wires_draw_the_walk()
    ensures { DrawsTheWalk }
{
    draws_follow_the_walk();
}

/// On all wires a program that draws by a seed, and steps each edge that is drawn, makes the trace
/// that `drive --seed` prints, whatever its length up to 1,048,576 edges.
pub fn all_wires_make_the_walk()
    ensures { MakesTheWalk }
{
    all_wires_draw_the_walk();
    draws_follow_the_walk();
    nothing_is_left_out();
    a_draw_gives_one_of_its_edges();
}

/// Five numbers have room for the conditions that an edge fails, whatever edges came before it.
pub fn five_have_room()
    ensures { AtMostFiveFail }
{}
