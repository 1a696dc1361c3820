// Commands from words.
ghost use Rattle.std.specs.Prelude.{◌≡◌, ℕ, ◌∷◌, IfOk, codes, MatchOption, MatchResult, ◌≢◌};
ghost use Rattle.std.specs.Result.{result_unwrap_or};
ghost use Rattle.wires.specs.Answers.{name};
ghost use Rattle.wires.specs.declared.command.Kind.{Kind};
ghost use Rattle.wires.specs.Orders.{IsNumber, Understood, texts};

use crate::command::{Command, Kind};
use std::alloc::{AllocError, Global};
use std::num::TryFromIntError;
use std::str::FromStr;

// The number that a word writes, or `largest`, the largest of its type, where it is above.
fn number<N: TryFrom<u64, Error = TryFromIntError> + Copy>(word: &str, largest: N) -> Option<N>
    ensures cases { MatchOption result ((x : ℕ) → IsNumber word.now x → ⊥) (λ n. (x : ℕ) × (r : _) × IsNumber word.now x × N.try_from_gives x r × (n ≡ result_unwrap_or r largest)) }
{
    let number: u64 = word.parse().ok()?;
    Some(N::try_from(number).unwrap_or(largest))
}

// A word that names no kind of line.
#[derive(Clone, Copy, PartialEq, Eq, Debug)]
pub struct UnknownKind;

impl FromStr for Kind {
    type Err = UnknownKind;

    ghost from_str_gives = { λ word r. MatchResult r (λ k. word ≡ name k) (λ _. (k : Kind) → word ≢ name k) };

    // The kind of line that a word names.
    fn from_str(word: &str) -> Result<Kind, UnknownKind> {
        match word {
            "ethernet" => Ok(Kind::Ethernet),
            "cell" => Ok(Kind::Cell),
            _ => Err(UnknownKind),
        }
    }
}

// A filling of the Ethernet line, from the words behind the first.
fn read_ethernet(heap: Global, rest: &[&str]) -> Result<Option<Command>, AllocError>
    ensures understood { IfOk result (Understood (codes "ethernet" ∷ texts rest.now)) }
{
    let mut codes = Vec::new(heap);
    for word in rest {
        let Some(code) = number(word, u8::MAX) else {
            return Ok(None);
        };
        codes.push(code)?;
    }
    Ok(Some(Command::FillEthernet { codes }))
}

// A filling of the cell line, from the words behind the first.
#[tactic(auto, using(crate::proofs::Asked::asked))]
fn read_cell(rest: &[&str]) -> Option<Command>
    ensures understood { Understood (codes "cell" ∷ texts rest.now) result }
{
    let [ports, size, time] = rest else {
        return None;
    };
    let ports = number(ports, u8::MAX)?;
    let size = number(size, u16::MAX)?;
    let time = number(time, u32::MAX)?;
    Some(Command::FillCell { ports, size, time })
}

// A question for a wire time, from the words behind the first.
#[tactic(auto, using(crate::proofs::Asked::asked))]
fn read_time(rest: &[&str]) -> Option<Command>
    ensures understood { Understood (codes "time" ∷ texts rest.now) result }
{
    let [kind, port, length] = rest else {
        return None;
    };
    let kind = kind.parse().ok()?;
    let port = number(port, u8::MAX)?;
    let length = number(length, u16::MAX)?;
    Some(Command::WireTime { kind, port, length })
}

// The command that the words of a line ask for, or none.
pub fn read(heap: Global, words: &[&str]) -> Result<Option<Command>, AllocError>
    ensures understood { IfOk result (Understood (texts words.now)) }
{
    let Some((first, rest)) = words.split_first() else {
        return Ok(None);
    };
    match *first {
        "ethernet" => read_ethernet(heap, rest),
        "cell" => Ok(read_cell(rest)),
        "time" => Ok(read_time(rest)),
        _ => Ok(None),
    }
}
