ghost use Rattle.std.specs.Prelude.{◌≡◌, List, ℕ, ◌+◌, ◌≤◌, ◌++◌, length};
ghost use Rattle.std.specs.Iterator.{AlwaysYields, IsFinite};
ghost use Rattle.octets.specs.Octets.{Octets};
ghost use Rattle.codes.specs.Rules.{Rule};
ghost use Rattle.frames.specs.Layout.{stuff, closing_octets};
ghost use Rattle.sender.specs.Writing.{Put, repeated};

use crate::stuffed::Stuffed;
use codes::LineCode;
use frames::FLAG;
use std::iter::once;

// Puts octets through the line code at the front of the stretch, as far as it goes. The loop takes the slots by themselves:
// `stretch.iter_mut().zip(octets)` was tried, and its invariant can't name what stands in the stretch.
pub fn put<L: LineCode, I: Iterator<Item = u8>>(line: &mut L, mut octets: I, stretch: &mut [u8])
    requires can { I.can_next octets }
    requires ends { IsFinite (I.remaining octets) }
    ensures { (os : List ℕ) → AlwaysYields I.next_gives (λ o. o) octets os → length os ≤ length stretch.old
        → Put (L.LineCode.onward line.old) (L.LineCode.onward line.new) os stretch.old stretch.new }
{
    for slot in stretch.iter_mut() {
        match octets.next() {
            Some(octet) => *slot = line.send(octet),
            None => break,
        }
    }
}

// Puts octets of a frame, which are stuffed.
pub fn put_stuffed<L: LineCode>(line: &mut L, octets: &[u8], stretch: &mut [u8])
    requires { length (stuff octets.now) ≤ length stretch.old }
    ensures { Put (L.LineCode.onward line.old) (L.LineCode.onward line.new) (stuff octets.now) stretch.old stretch.new }
{
    put(line, Stuffed::new(octets), stretch);
}

// Puts the check octets of a frame and the flag that ends it.
pub fn put_closing<L: LineCode>(line: &mut L, owed: &[u8], stretch: &mut [u8])
    requires { length (closing_octets owed.now) ≤ length stretch.old }
    ensures { Put (L.LineCode.onward line.old) (L.LineCode.onward line.new) (closing_octets owed.now) stretch.old stretch.new }
{
    put(line, Stuffed::new(owed).chain(once(FLAG)), stretch);
}

// Puts a turn of octets from a place on, behind those that were put before, and answers the place behind it.
fn put_turn<L: LineCode>(line: &mut L, turn: &[u8], stretch: &mut [u8], place: usize) -> usize
    requires { place + length turn.now ≤ length stretch.old }
    ensures place { result ≡ place + length turn.now }
    ensures puts { (f : List ℕ → List ℕ) (os before : List ℕ) → Rule f → Octets os → length os ≡ place → length before ≡ length stretch.old
        → Put f (L.LineCode.onward line.old) os before stretch.old → Put f (L.LineCode.onward line.new) (os ++ turn.now) before stretch.new }
    ensures octets { Octets turn.now }
    ensures long { length stretch.new ≡ length stretch.old }
{
    let mut next = place;
    for octet in turn {
        stretch[next] = line.send(*octet);
        next += 1;
    }
    next
}

// How many octets a turn of octets is again and again.
pub fn turns_length(turn: &[u8], times: u16) -> usize
    requires { length turn.now ≤ 2 }
    ensures { result ≡ length (repeated turn.now times) }
{
    turn.len() * usize::from(times)
}

// Puts a turn of octets again and again. By loops over places: as `put` of `repeat_n(turn, times).flatten()`, and of an
// iterator of its own, an octet took half as long again.
pub fn put_times<L: LineCode>(line: &mut L, turn: &[u8], times: u16, stretch: &mut [u8]) -> usize
    requires { length (repeated turn.now times) ≤ length stretch.old }
    ensures count { result ≡ length (repeated turn.now times) }
    ensures put { Put (L.LineCode.onward line.old) (L.LineCode.onward line.new) (repeated turn.now times) stretch.old stretch.new }
{
    let mut next = 0;
    for _turn in 0..times {
        next = put_turn(line, turn, stretch, next);
    }
    next
}
