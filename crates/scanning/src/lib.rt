// The first of two passes over the bytes of a file: the first fault in them, or how much is in its tables.
#![tactic(auto)]

ghost use Rattle.std.specs.Prelude.{◌≡◌, ◌+◌, ◌<◌, ◌≤◌, length, take, drop, MatchResult};
ghost use Rattle.files.specs.Reading.{same, reading};
ghost use Rattle.scanning.specs.Replies.{reading_told, contents_told};
ghost use Rattle.scanning.specs.Scanning.{Meets, from_sizes};

use problem::{Problem, Refusal};

// The file goes on to a place, or it ends before.
fn reach(file: &[u8], place: usize) -> Result<(), Refusal>
    ensures { MatchResult result (λ _. place ≤ length file.now) (λ why. (length file.now < place) × (why ≡ Refusal.FileEnd (length file.now))) }
{
    if file.len() < place {
        return Err(Refusal::FileEnd(file.len()));
    }
    Ok(())
}

// The two bytes from a place on are this mark.
pub fn is_mark(file: &[u8], at: usize, mark: &[u8; 2]) -> bool
    requires { at + 2 ≤ length file.now }
    ensures { result ≡ same (take 2 (drop at file.now)) mark.now }
{
    file[at..at + 2] == mark[..]
}

// What stands where a PR or the ED is due: a PR, by the slots of its lower boat; none, for the ED with nothing after it; or a fault.
fn meet(file: &[u8], boats: usize, at: usize, pairs: usize) -> Result<Option<usize>, Refusal>
    requires at_in_bounds { at ≤ length file.now }
    requires boats_bound { 3 + boats ≤ at }
    ensures { Meets file.now boats at pairs result }
{
    reach(file, at + 2)?;
    if is_mark(file, at, b"PR") {
        reach(file, at + 3)?;
        let lower = usize::from(file[at + 2]);
        if boats <= lower {
            return Err(Refusal::FileBoat(at + 2));
        }
        let slots = usize::from(file[3 + lower]);
        reach(file, at + 4 + 8 * slots)?;
        return Ok(Some(slots));
    }
    if !is_mark(file, at, b"ED") {
        return Err(Refusal::Mark(at));
    }
    reach(file, at + 4)?;
    if usize::from(file[at + 2]) + 256 * usize::from(file[at + 3]) != pairs {
        return Err(Refusal::FileCount(at + 2));
    }
    if at + 4 < file.len() {
        return Err(Refusal::FileRest(at + 4));
    }
    Ok(None)
}

// From the first mark after the SZ on.
fn scan_pairs(file: &[u8], boats: usize) -> Result<Problem, Refusal>
    requires { 3 + boats ≤ length file.now }
    ensures { contents_told result ≡ reading_told (from_sizes file.now boats) }
{
    let mut at = 3 + boats;
    let mut pairs = 0;
    let mut words = 0;
    while let Some(slots) = meet(file, boats, at, pairs)? {
        at += 4 + 8 * slots;
        pairs += 1;
        words += slots;
    }
    Ok(Problem::of(boats, pairs, words))
}

// Any bytes at all. Of a PR only its mark and its lower boat are looked at here.
pub fn scan(file: &[u8]) -> Result<Problem, Refusal>
    ensures { contents_told result ≡ reading_told (reading file.now) }
{
    reach(file, 2)?;
    if !is_mark(file, 0, b"SZ") {
        return Err(Refusal::Mark(0));
    }
    reach(file, 3)?;
    let boats = usize::from(file[2]);
    reach(file, 3 + boats)?;
    scan_pairs(file, boats)
}
