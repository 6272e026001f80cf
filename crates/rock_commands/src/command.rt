// The command line, by the product's own table.
ghost use Rattle.std.specs.Prelude.{◌≡◌, ℕ, [], ◌∷◌, ◌^◌, ◌<◌, ◌↔◌, None, Option, IsTrue, IfSome, MatchOption, decimal, Some};
ghost use Rattle.rock_commands.specs.CommandLine.{FitsWord, IsName, IsCommandLine, slot_word};
ghost use Rattle.rock_commands.specs.Command.{IsCommand};

use bench_command::BenchTarget;
use itoa::Buffer;
use rock_io::Words;

/// A file, and how many bytes each of its slots has, where that is given.
#[derive(Clone, Copy, Debug, PartialEq, Eq)]
pub struct Target<'a> {
    pub name: &'a str,
    pub slot: Option<u32>,
}

/// A file whose header area is to record its slots, and how many bytes each of them has.
#[derive(Clone, Copy, Debug, PartialEq, Eq)]
pub struct OldFile<'a> {
    pub name: &'a str,
    pub slot: u32,
}

/// A file that is to be made: how many bytes each of its slots has, and how many slots.
#[derive(Clone, Copy, Debug, PartialEq, Eq)]
pub struct NewFile<'a> {
    pub name: &'a str,
    pub slot: u32,
    pub slots: u32,
}

/// What a command line asks for.
#[derive(Clone, Copy, Debug, PartialEq, Eq)]
pub enum Command<'a> {
    /// `list NAME SLOT`: list the complete entries of a file.
    List {
        target: Target<'a>,
    },
    /// `check NAME SLOT ANCHORS`: sum up what a store with so many anchors keeps of a file.
    Check {
        target: Target<'a>,
        anchors: u32,
    },
    /// `create NAME SLOT SLOTS`: make a file of so many empty slots.
    Create {
        target: NewFile<'a>,
    },
    /// `run NAME SLOT ANCHORS WORKERS`: run a script over a file, by a store with so many anchors and so
    /// many workers.
    Run {
        target: Target<'a>,
        anchors: u32,
        workers: u32,
    },
    /// `bench NAME SEED WORKERS COUNT`: run the script of a benchmark over a new file.
    Bench {
        target: BenchTarget<'a>,
    },
    /// `migrate NAME SLOT`: make the header area of a file record its slots.
    Migrate {
        target: OldFile<'a>,
    },
}

impl<'a> Command<'a> {
    /// Reads a command line without the program's own name. None exactly where it is none of the
    /// table.
    pub fn parse(words: &'a Words) -> Option<Command<'a>>
        ensures { MatchOption result (IsCommandLine words.now → ⊥) (IsCommand words.now) }
    {
        match words.as_slice() {
            [command, name, slot] => {
                Command::of_three(command.as_str(), name.as_str(), slot.as_str())
            }
            [command, name, slot, count] => {
                let count = number(count.as_str())?;
                Command::of_four(command.as_str(), name.as_str(), slot.as_str(), count)
            }
            [command, name, first, second, third] => {
                let second = number(second.as_str())?;
                let third = number(third.as_str())?;
                Command::of_five(
                    command.as_str(),
                    name.as_str(),
                    first.as_str(),
                    second,
                    third,
                )
            }
            _ => None,
        }
    }

    /// The command of three words: its own, the name of a file, and a word for the size of a slot.
    fn of_three(command: &str, name: &'a str, slot: &str) -> Option<Command<'a>>
        ensures { MatchOption result
            (IsCommandLine (command.now ∷ name.now ∷ slot.now ∷ []) → ⊥)
            (IsCommand (command.now ∷ name.now ∷ slot.now ∷ [])) }
    {
        if command == "list" {
            Some(Command::List {
                target: Target::parse(name, slot)?,
            })
        } else if command == "migrate" {
            Some(Command::Migrate {
                target: OldFile::parse(name, slot)?,
            })
        } else {
            None
        }
    }

    /// The command of four words: its own, the name of a file, a word for the size of a slot, and a number.
    fn of_four(command: &str, name: &'a str, slot: &str, count: u32) -> Option<Command<'a>>
        ensures { MatchOption result
            (IsCommandLine (command.now ∷ name.now ∷ slot.now ∷ decimal count ∷ []) → ⊥)
            (IsCommand (command.now ∷ name.now ∷ slot.now ∷ decimal count ∷ [])) }
    {
        if command == "check" {
            Some(Command::Check {
                target: Target::parse(name, slot)?,
                anchors: count,
            })
        } else if command == "create" {
            Some(Command::Create {
                target: NewFile::parse(name, slot, count)?,
            })
        } else {
            None
        }
    }

    /// The command of five words: its own, the name of a file, a word that is to be a number, and two numbers.
    fn of_five(
        command: &str,
        name: &'a str,
        first: &str,
        second: u32,
        third: u32,
    ) -> Option<Command<'a>>
        ensures { MatchOption result
            (IsCommandLine (command.now ∷ name.now ∷ first.now ∷ decimal second ∷ decimal third ∷ []) → ⊥)
            (IsCommand (command.now ∷ name.now ∷ first.now ∷ decimal second ∷ decimal third ∷ [])) }
    {
        if command == "run" {
            Some(Command::Run {
                target: Target::parse(name, first)?,
                anchors: second,
                workers: third,
            })
        } else if command == "bench" {
            Some(Command::Bench {
                target: bench_target(name, first, second, third)?,
            })
        } else {
            None
        }
    }
}

/// Reads the name of a benchmark's file, and the number that its script is made from.
fn bench_target<'a>(name: &'a str, seed: &str, workers: u32, count: u32) -> Option<BenchTarget<'a>>
    ensures some { IfSome result (λ t. IsName name.now × (t.name.now ≡ name.now) × (seed.now ≡ decimal t.seed)
        × (t.seed < 2 ^ 64) × (t.workers ≡ workers) × (t.count ≡ count)) }
    ensures none { (n : ℕ) → n < 2 ^ 64 → IsName name.now → seed.now ≡ decimal n → result ≡ None → ⊥ }
{
    if !is_name(name) {
        return None;
    }
    Some(BenchTarget {
        name,
        seed: long_number(seed)?,
        workers,
        count,
    })
}

impl<'a> Target<'a> {
    /// Reads the name of a file and the size of its slots, which is a number, or `-` where none is given.
    fn parse(name: &'a str, slot: &str) -> Option<Target<'a>>
        ensures some { IfSome result (λ t. IsName name.now × (t.name.now ≡ name.now)
            × (slot.now ≡ slot_word t.slot) × FitsWord t.slot) }
        ensures none { (given : Option ℕ) → FitsWord given → IsName name.now → slot.now ≡ slot_word given → result ≡ None → ⊥ }
    {
        if !is_name(name) {
            return None;
        }
        let slot = if slot == "-" {
            None
        } else {
            Some(number(slot)?)
        };
        Some(Target { name, slot })
    }
}

impl<'a> OldFile<'a> {
    /// Reads the name of a file, and the size of its slots, which is a number.
    fn parse(name: &'a str, slot: &str) -> Option<OldFile<'a>>
        ensures some { IfSome result (λ t. IsName name.now × (t.name.now ≡ name.now)
            × (slot.now ≡ decimal t.slot) × (t.slot < 2 ^ 32)) }
        ensures none { (n : ℕ) → n < 2 ^ 32 → IsName name.now → slot.now ≡ decimal n → result ≡ None → ⊥ }
    {
        if !is_name(name) {
            return None;
        }
        Some(OldFile {
            name,
            slot: number(slot)?,
        })
    }
}

impl<'a> NewFile<'a> {
    /// Reads the name of a file that is to be made, and the size of its slots.
    fn parse(name: &'a str, slot: &str, slots: u32) -> Option<NewFile<'a>>
        ensures some { IfSome result (λ t. IsName name.now × (t.name.now ≡ name.now)
            × (slot.now ≡ decimal t.slot) × (t.slot < 2 ^ 32) × (t.slots ≡ slots)) }
        ensures none { (n : ℕ) → n < 2 ^ 32 → IsName name.now → slot.now ≡ decimal n → result ≡ None → ⊥ }
    {
        if !is_name(name) {
            return None;
        }
        Some(NewFile {
            name,
            slot: number(slot)?,
            slots,
        })
    }
}

/// A name is any text that is not empty and does not begin with `-`.
fn is_name(word: &str) -> bool
    ensures { IsTrue result ↔ IsName word.now }
{
    match word.as_bytes() {
        [] => false,
        [first, ..] => *first != b'-',
    }
}

/// A number of 32 bits.
fn number(word: &str) -> Option<u32>
    ensures some { IfSome result (λ n. word.now ≡ decimal n) }
    ensures none { (n : ℕ) → n < 2 ^ 32 → word.now ≡ decimal n → result ≡ Some n }
{
    let number = long_number(word)?;
    if number > u64::from(u32::MAX) {
        return None;
    }
    Some(number as u32)
}

/// A number is decimal digits with no sign, and no leading zero unless it is `0`.
fn long_number(word: &str) -> Option<u64>
    ensures some { IfSome result (λ n. word.now ≡ decimal n) }
    ensures none { (n : ℕ) → n < 2 ^ 64 → word.now ≡ decimal n → result ≡ Some n }
{
    let Ok(number) = word.parse::<u64>() else {
        return None;
    };
    let mut buffer = Buffer::new();
    if buffer.format(number) == word {
        Some(number)
    } else {
        None
    }
}
