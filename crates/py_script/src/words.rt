//! The words of a command line, and what they ask for.

ghost use Rattle.std.specs.Prelude.{◌≡◌, [], ◌∷◌, ◌++◌, length, slice_get, option_copied, OnOk, OnErr};
ghost use Rattle.py_lines.specs.Words.{short_number as spelled};
ghost use Rattle.py_script.specs.Words.{command_in, made_of, run_of, HasFewGroups};

use py_code::NoMemory;
use py_lines::short_number;
use py_make::MOST_GROUPS;
use std::alloc::Global;
use std::marker::Model;

/// As many turns as a run has where the words don't say.
pub(crate) const TURNS: u64 = 1_000_000;

/// Words in order, seen as the list of their texts.
#[derive(Drop)]
pub struct Words {
    alloc: Global,
    words: Vec<String>,
}

impl Model for Words {
    ghost use Rattle.std.specs.Prelude.{List, ℕ, map, string_bytes};

    ghost Value = { List (List ℕ) };

    ghost view = { λ w. map string_bytes w.words.items };
}

impl Words {
    /// No words, which takes no memory.
    pub fn new(alloc: Global) -> Words
        ensures { result ≡ [] }
    {
        Words {
            alloc,
            words: Vec::new(alloc),
        }
    }

    /// Puts a word behind the others.
    pub fn push(&mut self, word: &str) -> Result<(), NoMemory>
        ensures added { OnOk result (self.new ≡ self.old ++ word.now ∷ []) }
        ensures err { OnErr result (self.new ≡ self.old) }
    {
        let word = String::from_str(self.alloc, word)?;
        self.words.push(word)?;
        Ok(())
    }

    /// How many words there are.
    pub fn len(&self) -> usize
        ensures { result ≡ length self.now }
    {
        self.words.len()
    }

    /// The word at a place, from 0.
    pub fn get(&self, at: usize) -> Option<&str>
        ensures { option_copied result ≡ slice_get self.now at }
    {
        match self.words.get(at) {
            Some(word) => Some(word.as_str()),
            None => None,
        }
    }
}

/// What words ask for.
#[derive(Clone, Copy, Debug, PartialEq, Eq)]
pub enum Command {
    /// `run`: a run of at most so many turns.
    Run { turns: u64 },
    /// `make`: the script of a seed, with so many groups of drives, and its run.
    Make { seed: u64, count: u64 },
    /// Nothing that is known.
    Usage,
}

/// The command of `run` with its turns.
fn run_with(turns: &str) -> Command
    ensures { result ≡ run_of (spelled turns.now) }
{
    match short_number(turns.as_bytes()) {
        Some(turns) => Command::Run { turns },
        None => Command::Usage,
    }
}

/// The command of `make` with its seed and its count, which is at most `MOST_GROUPS`.
fn make_with(seed: &str, count: &str) -> Command
    ensures { result ≡ made_of (spelled seed.now) (spelled count.now) }
{
    match (
        short_number(seed.as_bytes()),
        short_number(count.as_bytes()),
    ) {
        (Some(seed), Some(count)) if count <= MOST_GROUPS => Command::Make { seed, count },
        _ => Command::Usage,
    }
}

/// What words ask for: `run` alone is a run of 1,000,000 turns, and `run T` one of T turns; `make SEED COUNT` makes a script.
pub fn command_of(words: &Words) -> Command
    ensures command { result ≡ command_in words.now }
    ensures few { HasFewGroups result }
{
    match (words.len(), words.get(0), words.get(1), words.get(2)) {
        (1, Some(word), _, _) if word == "run" => Command::Run { turns: TURNS },
        (2, Some(word), Some(turns), _) if word == "run" => run_with(turns),
        (3, Some(word), Some(seed), Some(count)) if word == "make" => make_with(seed, count),
        _ => Command::Usage,
    }
}
