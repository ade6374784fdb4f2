//! What holds for every walk.
//!
//! The functions do nothing and cost nothing. Each states a theorem by its contract, and a call of
//! it gives the theorem to the prover.
ghost use Rattle.vme_seeds.specs.Laws.{DrawAlike, EachCanBeMade, EachIsOpen, FollowOn, IsBelow, NumbersAreDrawn, OneOfThese, SomeIsDrawn, SomeIsMade};

/// Each edge that the rules allow is of one kind, and some two numbers choose it. Whatever two
/// numbers choose, the rules allow. As long as an edge is open, some edge is chosen.
pub fn nothing_is_left_out()
    ensures made { EachCanBeMade }
    ensures open { EachIsOpen }
    ensures some { SomeIsMade }
{}

/// Each number below a bound of at most 2^32 is the draw of some word, and no draw is another
/// number.
pub fn every_number_can_be_drawn()
    ensures drawn { NumbersAreDrawn }
    ensures below { IsBelow }
{}

/// Draws that stand where a walk stands draw the walk's next edge, and stand where the walk stands
/// with it. So from one seed both make the same edges.
pub fn draws_follow_the_walk()
    ensures next { DrawAlike }
    ensures on { FollowOn }
{}

/// A draw among any edges gives one of them, and it gives one if there is any and each kind has a
/// weight, as a seed gives it.
pub fn a_draw_gives_one_of_its_edges()
    ensures one { OneOfThese }
    ensures some { SomeIsDrawn }
{
    every_number_can_be_drawn();
}
