//! The granules of one stretch, and the blocks that are cut from them.
ghost use Rattle.std.specs.Prelude.{◌≡◌, ◌+◌, ◌*◌, ◌%◌, ◌^◌, ◌<◌, ◌≤◌, IfSome, MatchResult};

use crate::loan::Loan;
use crate::memory::UNIT;
use crate::piece::Piece;

// The granules of a stretch. Blocks are laid one after the other: none stands at the granule `next`
// or after it.
#[derive(Drop)]
pub(crate) struct Held<'r> {
    loan: Loan<'r>,
    count: usize,
    next: usize,
    ghost counted: { (loan.count ≡ count) × (next ≤ count) },
    ghost aligned: { loan.spot.at % 16 ≡ 0 },
}

impl<'r> Loan<'r> {
    // The `count` granules from `place` on as one piece, or otherwise the place of one of them that
    // is away.
    pub(crate) fn take_run(self, place: usize, count: usize) -> (Loan<'r>, Result<Piece, usize>)
        requires { (0 < count) × (place + count ≤ self.count) × (self.count < 2 ^ 59) }
        ensures { (result.0 ≡ self.entry)
            × MatchResult result.1
            (λ p. (p.block ≡ self.entry.spot.block) × (p.at ≡ self.entry.spot.at + place * 16)
            × (p.size ≡ count * 16)) (λ i. (place ≤ i) × (i < place + count)) }
    {
        let (mut loan, first) = self.take(place);
        let Some(mut run) = first else {
            return (loan, Err(place));
        };
        let mut taken = 1;
        while taken < count {
            let (back, next) = loan.take(place + taken);
            loan = back;
            let Some(next) = next else {
                let loan = loan.put_run(place, taken, run);
                return (loan, Err(place + taken));
            };
            run = run.join(next);
            taken += 1;
        }
        (loan, Ok(run))
    }

    // Brings the `count` granules from `place` on home, given as one piece.
    fn put_run(self, place: usize, count: usize, piece: Piece) -> Loan<'r>
        requires { (place + count ≤ self.count) × (piece.size ≡ count * 16)
            × (piece.at ≡ self.spot.at + place * 16) × (piece.block ≡ self.spot.block) }
        ensures { result ≡ self.entry }
    {
        let mut loan = self;
        let mut piece = piece;
        for i in 0..count {
            let (back, rest) = loan.put(place + i, piece);
            loan = back;
            piece = rest;
        }
        loan
    }

    // The place of the granule with which the piece begins.
    fn find(self, count: usize, piece: Piece) -> (usize, (Loan<'r>, Piece))
        requires granules { (self.count ≡ count) × (self.spot.at % 16 ≡ 0) }
        requires piece { (piece.block ≡ self.spot.block) × (self.spot.at ≤ piece.at)
            × (piece.at < self.spot.at + count * 16) × (piece.at % 16 ≡ 0) }
        ensures { (piece.at ≡ self.entry.spot.at + result.0 * 16) × (result.1.0 ≡ self.entry)
            × (result.1.1 ≡ piece) }
    {
        let mut loan = self;
        let mut piece = piece;
        let mut low = 0;
        let mut high = count;
        while high - low > 1 {
            let middle = low + (high - low) / 2;
            let (past, back) = loan.is_past(middle, piece);
            (loan, piece) = back;
            if past {
                high = middle;
            } else {
                low = middle;
            }
        }
        (low, (loan, piece))
    }
}

impl<'r> Held<'r> {
    ghost use Rattle.vme_arena.specs.Stretch.{LiesIn};
    ghost use Rattle.vme_arena.specs.Held.{held_stretch};

    pub(crate) fn new(loan: Loan<'r>, count: usize) -> Held<'r>
        requires { (loan.count ≡ count) × (loan.spot.at % 16 ≡ 0) }
        ensures { ((held_stretch result).block ≡ loan.entry.spot.block)
            × ((held_stretch result).start ≡ loan.entry.spot.at)
            × ((held_stretch result).end ≡ loan.entry.spot.at + count * 16) }
    {
        Held {
            loan,
            count,
            next: 0,
        }
    }

    // A block of `size` bytes after the other blocks. Granules that never came home are passed
    // over.
    pub(crate) fn take(self, size: usize) -> (Held<'r>, Option<Piece>)
        requires { (16 ≤ size) × (size % 16 ≡ 0) }
        ensures held { held_stretch result.0 ≡ held_stretch self.entry }
        ensures block { IfSome result.1
            (λ p. (p.size ≡ size) × LiesIn (held_stretch self.entry) p.at size p.ptr) }
    {
        let Held { loan, count, next } = self;
        let wanted = size / UNIT;
        let mut loan = loan;
        let mut place = next;
        while wanted <= count - place {
            let (back, run) = loan.take_run(place, wanted);
            loan = back;
            match run {
                Ok(block) => {
                    let next = place + wanted;
                    return (Held { loan, count, next }, Some(block));
                }
                Err(away) => place = away + 1,
            }
        }
        (Held { loan, count, next }, None)
    }

    // The `more` bytes after the block of `given` bytes at `start`, if that is the last block.
    pub(crate) fn take_behind(
        self,
        start: Piece,
        given: usize,
        more: usize,
    ) -> (Held<'r>, Option<Piece>)
        requires sizes { (16 ≤ given) × (given % 16 ≡ 0) × (more % 16 ≡ 0) }
        requires block { (start.block ≡ (held_stretch self).block)
            × ((held_stretch self).start ≤ start.at) × (start.at + given ≤ (held_stretch self).end)
            × (start.at % 16 ≡ 0) }
        ensures held { held_stretch result.0 ≡ held_stretch self.entry }
        ensures behind { IfSome result.1
            (λ p. (p.block ≡ start.block) × (p.at ≡ start.at + given) × (p.size ≡ more)
            × (p.at + more ≤ (held_stretch self.entry).end)) }
    {
        let Held { loan, count, next } = self;
        let (place, (loan, _)) = loan.find(count, start);
        let wanted = more / UNIT;
        if wanted == 0 || wanted > count - next || place + given / UNIT != next {
            return (Held { loan, count, next }, None);
        }
        let (loan, run) = loan.take_run(next, wanted);
        match run {
            Ok(behind) => {
                let next = next + wanted;
                (Held { loan, count, next }, Some(behind))
            }
            Err(_) => (Held { loan, count, next }, None),
        }
    }

    // Brings a block home. Blocks may come home in any order.
    pub(crate) fn give(self, block: Piece, size: usize) -> Held<'r>
        requires size { (16 ≤ size) × (block.size ≡ size) }
        requires block { (block.block ≡ (held_stretch self).block)
            × ((held_stretch self).start ≤ block.at) × (block.at + size ≤ (held_stretch self).end)
            × (block.at % 16 ≡ 0) }
        ensures { held_stretch result ≡ held_stretch self.entry }
    {
        let Held { loan, count, next } = self;
        let given = size / UNIT;
        let (place, (loan, block)) = loan.find(count, block);
        let loan = loan.put_run(place, given, block);
        Held { loan, count, next }.settle()
    }

    // Makes the room of the last blocks free once they have come home, in whatever order they did.
    fn settle(self) -> Held<'r>
        ensures { held_stretch result ≡ held_stretch self.entry }
    {
        let Held { loan, count, next } = self;
        let mut loan = loan;
        let mut next = next;
        while next > 0 {
            let (back, granule) = loan.take(next - 1);
            loan = back;
            let Some(granule) = granule else {
                return Held { loan, count, next };
            };
            next -= 1;
            (loan, _) = loan.put(next, granule);
        }
        Held { loan, count, next }
    }
}
