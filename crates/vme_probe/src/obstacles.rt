//! What stands in the way of a driver of a change that nobody may have made, and how that is
//! printed.
ghost use Rattle.std.specs.Prelude.{◌≡◌, ◌+◌, ◌≤◌, ◌++◌, decimal, length};
ghost use Rattle.arrayvec.specs.ArrayVec.{array_vec_len};
ghost use Rattle.vme_model.specs.Spoken.{driver_name};
ghost use Rattle.vme_probe.specs.Obstacles.{condition_text, is_marked, is_ours, no_driver_line, obstacle_line, rule_text, wire_word};

use arrayvec::ArrayVec;
use vme_model::{Condition, Driver, IrqKind, Rule, Wire, profile_mark};
use vme_text::{push, push_byte};

/// Room for the line of an obstacle: the longest has 54 bytes.
pub const OBSTACLE: usize = 96;

/// The first condition of a change that holds of a driver in no standing of a record in which the
/// conditions before it hold.
#[derive(Clone, Copy, PartialEq, Eq, Debug)]
pub enum Obstacle {
    /// E2: the board does not pull its wire, which would rise.
    NotLow(Wire),
    /// The condition of the rule, whose text is the same for every edge.
    Fails(Rule, Condition),
    /// G1: the arbiter does not pick the level, 0 to 3.
    NotPicked(u8),
    /// G15: the board does not handle the level, 1 to 7, of the acknowledge that it shows.
    NotHandled(u8),
    /// G22: the interrupt request was not served in the way of its kind.
    NotServed(IrqKind),
    /// Another board pulls the interrupt line, which would rise.
    OtherLow,
    /// G25: the board is not pending at the level, 1 to 7, of the acknowledge that it answers.
    NotPending(u8),
    /// G23: the board is pending at the level, 1 to 7, of the acknowledge that it passes on.
    IsPending(u8),
    /// A status byte was seen, and no acknowledge is shown.
    NoAcknowledge,
    /// The status byte that was seen is this one, and not that of the board.
    OtherByte(u8),
}

/// The line of a change that no board can make, since none has its line or wire.
pub fn no_driver_line() -> &'static [u8]
    ensures { result.now ≡ no_driver_line }
{
    b"    E1 no board has this line"
}

/// Appends a driver's name: at most 3 bytes.
fn push_driver(line: &mut ArrayVec<u8, OBSTACLE>, driver: Driver)
    requires { array_vec_len line.old + 3 ≤ 96 }
    ensures items { line.new.items ≡ line.old.items ++ driver_name driver }
    ensures len { array_vec_len line.new ≤ array_vec_len line.old + 3 }
{
    match driver {
        Driver::Controller => push(line, b"c"),
        Driver::Slot(slot) => push_byte(line, slot),
    }
}

/// The word of a wire of a board: at most 7 bytes.
fn wire_word(wire: Wire) -> &'static str
    ensures text { result.now ≡ wire_word wire }
    ensures short { length result.now ≤ 7 }
{
    match wire {
        Wire::Bg(_) => "bg",
        _ => wire.word(),
    }
}

/// Appends a text and a number: at most 51 bytes.
fn push_numbered(line: &mut ArrayVec<u8, OBSTACLE>, text: &[u8], n: u8)
    requires room { array_vec_len line.old + 51 ≤ 96 }
    requires short { length text.now ≤ 48 }
    ensures items { line.new.items ≡ line.old.items ++ (text.now ++ decimal n) }
    ensures len { array_vec_len line.new ≤ array_vec_len line.old + 51 }
{
    push(line, text);
    push_byte(line, n);
}

impl Obstacle {
    /// What stands before the condition: the name of its rule, or a word. At most 6 bytes.
    fn rule_text(&self) -> &'static str
        ensures text { result.now ≡ rule_text self.now }
        ensures short { length result.now ≤ 6 }
    {
        match *self {
            Obstacle::NotLow(_) => "E2",
            Obstacle::Fails(rule, _) => rule.name(),
            Obstacle::NotPicked(_) => "G1",
            Obstacle::NotHandled(_) => "G15",
            Obstacle::NotServed(_) => "G22",
            Obstacle::OtherLow => "line",
            Obstacle::NotPending(_) => "G25",
            Obstacle::IsPending(_) => "G23",
            Obstacle::NoAcknowledge | Obstacle::OtherByte(_) => "status",
        }
    }

    /// Appends the condition: at most 51 bytes.
    fn push_condition(&self, driver: Driver, line: &mut ArrayVec<u8, OBSTACLE>)
        requires { array_vec_len line.old + 51 ≤ 96 }
        ensures items { line.new.items ≡ line.old.items ++ condition_text driver self.now }
        ensures len { array_vec_len line.new ≤ array_vec_len line.old + 51 }
    {
        match *self {
            Obstacle::NotLow(wire) => {
                push_driver(line, driver);
                push(line, b" ");
                push(line, wire_word(wire).as_bytes());
                push(line, b" is low");
            }
            Obstacle::Fails(_, condition) => push(line, condition.pattern().as_bytes()),
            Obstacle::NotPicked(level) => push_numbered(line, b"the arbiter picks level ", level),
            Obstacle::NotHandled(level) => push_numbered(line, b"the board handles level ", level),
            Obstacle::NotServed(kind) => push(line, kind.service_text().as_bytes()),
            Obstacle::OtherLow => push(line, b"no other irq is low"),
            Obstacle::NotPending(level) => push_numbered(line, b"pending at level ", level),
            Obstacle::IsPending(level) => push_numbered(line, b"not pending at level ", level),
            Obstacle::NoAcknowledge => push(line, b"an acknowledge is shown"),
            Obstacle::OtherByte(byte) => push_numbered(line, b"its byte is ", byte),
        }
    }

    /// Whether the condition has the mark of the profile: the standard does not ask for it, or
    /// says when. That a bus timer waits until nobody can answer has none here: a capture of the
    /// standard's own BERR* is meant to be judged by it.
    pub fn is_marked(&self) -> bool
        ensures { result ≡ is_marked self.now }
    {
        match *self {
            Obstacle::Fails(Rule::S2, _) => false,
            Obstacle::Fails(rule, condition) => rule.is_profile(condition),
            Obstacle::NotPicked(_) => true,
            _ => false,
        }
    }

    /// Whether the driver breaks, as far as is known, our rules alone: the condition has the mark,
    /// and it is not that the arbiter picks a level. The standard has the policies of arbiters,
    /// too; only the moment of the pick is ours.
    pub fn is_ours(&self) -> bool
        ensures { result ≡ is_ours self.now }
    {
        !matches!(*self, Obstacle::NotPicked(_)) && self.is_marked()
    }
}

/// The line of what stands in the way of a driver, without its line feed: four blanks, the driver,
/// the rule, the condition, and ` (profile)` behind one that has the mark.
pub fn obstacle_line(driver: Driver, obstacle: &Obstacle) -> ArrayVec<u8, OBSTACLE>
    ensures { result.items ≡ obstacle_line driver obstacle.now }
{
    let mut line = ArrayVec::new();
    push(&mut line, b"    ");
    push_driver(&mut line, driver);
    push(&mut line, b" ");
    push(&mut line, obstacle.rule_text().as_bytes());
    push(&mut line, b" ");
    obstacle.push_condition(driver, &mut line);
    push(&mut line, profile_mark(obstacle.is_marked()).as_bytes());
    line
}
