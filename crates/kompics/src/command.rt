ghost use Rattle.std.specs.Prelude.{◌≡◌, ◌≢◌, ◌≤◌, ◌↔◌, ℕ, [], ◌∷◌, codes, decimal, IsTrue, MatchOption};
ghost use Rattle.kompics.specs.Words.{IsNoCommand, IsNoRun, IsCommand, IsCrewed};

use itoa::Buffer;
use kom_io::Words;

/// How the system of a file is written.
#[derive(Clone, Copy, Debug)]
pub enum Form {
    /// By the version of the file.
    AsItIs,
    /// By the second version.
    Upgraded,
}

/// What the words ask for that needs no workers.
#[derive(Clone, Copy, Debug)]
pub enum Command<'w> {
    /// Writes the canonical text of the system of a file.
    Print { form: Form, system: &'w str },
    /// Simulates the system of one file under the scenario of another.
    Sim { system: &'w str, scenario: &'w str },
    /// Writes the generated system of a number from 1 to 30.
    MakeSystem(u32),
    /// Writes the generated scenario of a number from 1 to 30.
    MakeScenario(u32),
    /// Simulates the generated system and scenario of a number from 1 to 30.
    Drill(u32),
}

/// A run that the words ask for: of the system of one file under the scenario of another, with 1 to
/// 64 workers.
#[derive(Clone, Copy, Debug)]
pub struct Crewed<'w> {
    pub system: &'w str,
    pub scenario: &'w str,
    pub workers: u32,
}

fn is_number(word: &str, n: u32) -> bool
    ensures { IsTrue result ↔ (word.now ≡ decimal n) }
{
    let mut buffer = Buffer::new();
    word == buffer.format(n)
}

/// The number from 1 up to a greatest one that a word is, without leading zeros.
fn number_of(word: &str, most: u32) -> Option<u32>
    requires { most ≤ 64 }
    ensures { MatchOption result ((n : ℕ) → 1 ≤ n → n ≤ most → word.now ≢ decimal n) (λ n. (1 ≤ n) × (n ≤ most) × (word.now ≡ decimal n)) }
{
    for n in 1..most + 1 {
        if is_number(word, n) {
            return Some(n);
        }
    }
    None
}

/// The command of words that begin with `make`.
#[tactic(auto, using(crate::proofs::Words::no_number, crate::proofs::Words::no_text))]
fn making<'w>(number: &'w str, what: &'w str) -> Option<Command<'w>>
    ensures { MatchOption result (IsNoCommand (codes "make" ∷ number.now ∷ what.now ∷ [])) (λ c. IsCommand c (codes "make" ∷ number.now ∷ what.now ∷ [])) }
{
    let n = number_of(number, 30)?;
    if what == "system" {
        return Some(Command::MakeSystem(n));
    }
    if what == "scenario" {
        return Some(Command::MakeScenario(n));
    }
    None
}

/// The command of words that begin with `drill`.
#[tactic(auto, using(crate::proofs::Words::no_drill))]
fn drilling<'w>(number: &'w str) -> Option<Command<'w>>
    ensures { MatchOption result (IsNoCommand (codes "drill" ∷ number.now ∷ [])) (λ c. IsCommand c (codes "drill" ∷ number.now ∷ [])) }
{
    let n = number_of(number, 30)?;
    Some(Command::Drill(n))
}

/// The command of two words.
#[tactic(auto, using(crate::proofs::Words::no_pair))]
fn of_two<'w>(first: &'w str, second: &'w str) -> Option<Command<'w>>
    ensures { MatchOption result (IsNoCommand (first.now ∷ second.now ∷ [])) (λ c. IsCommand c (first.now ∷ second.now ∷ [])) }
{
    if first == "check" {
        return Some(Command::Print {
            form: Form::AsItIs,
            system: second,
        });
    }
    if first == "upgrade" {
        return Some(Command::Print {
            form: Form::Upgraded,
            system: second,
        });
    }
    if first == "drill" {
        return drilling(second);
    }
    None
}

/// The command of three words.
#[tactic(auto, using(crate::proofs::Words::no_command))]
fn of_three<'w>(first: &'w str, second: &'w str, third: &'w str) -> Option<Command<'w>>
    ensures { MatchOption result (IsNoCommand (first.now ∷ second.now ∷ third.now ∷ [])) (λ c. IsCommand c (first.now ∷ second.now ∷ third.now ∷ [])) }
{
    if first == "sim" {
        return Some(Command::Sim {
            system: second,
            scenario: third,
        });
    }
    if first == "make" {
        return making(second, third);
    }
    None
}

/// The run with workers of words that begin with `run`.
#[tactic(auto, using(crate::proofs::Words::no_workers))]
fn working<'w>(system: &'w str, scenario: &'w str, number: &'w str) -> Option<Crewed<'w>>
    ensures { MatchOption result (IsNoRun (codes "run" ∷ system.now ∷ scenario.now ∷ number.now ∷ [])) (λ r. IsCrewed r (codes "run" ∷ system.now ∷ scenario.now ∷ number.now ∷ [])) }
{
    let workers = number_of(number, 64)?;
    Some(Crewed {
        system,
        scenario,
        workers,
    })
}

/// The run with workers of four words.
#[tactic(auto, using(crate::proofs::Words::no_run))]
fn of_four<'w>(
    first: &'w str,
    second: &'w str,
    third: &'w str,
    fourth: &'w str,
) -> Option<Crewed<'w>>
    ensures { MatchOption result (IsNoRun (first.now ∷ second.now ∷ third.now ∷ fourth.now ∷ [])) (λ r. IsCrewed r (first.now ∷ second.now ∷ third.now ∷ fourth.now ∷ [])) }
{
    if first == "run" {
        return working(second, third, fourth);
    }
    None
}

/// The run with workers that the words ask for; `None` exactly where they ask for no run with 1 to 64
/// workers.
#[tactic(auto, using(crate::proofs::Words::not_four, crate::proofs::Words::four))]
pub fn run_of(words: &Words) -> Option<Crewed<'_>>
    ensures { MatchOption result (IsNoRun words.now) (λ r. IsCrewed r words.now) }
{
    if words.len() != 4 {
        return None;
    }
    match (words.at(0), words.at(1), words.at(2), words.at(3)) {
        (Some(first), Some(second), Some(third), Some(fourth)) => {
            of_four(first, second, third, fourth)
        }
        _ => None,
    }
}

/// The command without workers that the words are; `None` exactly where they are none of these.
#[tactic(auto, using(crate::proofs::Words::of_another_length, crate::proofs::Words::two, crate::proofs::Words::three))]
pub fn command_of(words: &Words) -> Option<Command<'_>>
    ensures { MatchOption result (IsNoCommand words.now) (λ c. IsCommand c words.now) }
{
    if words.len() == 2 {
        return match (words.at(0), words.at(1)) {
            (Some(first), Some(second)) => of_two(first, second),
            _ => None,
        };
    }
    if words.len() != 3 {
        return None;
    }
    match (words.at(0), words.at(1), words.at(2)) {
        (Some(first), Some(second), Some(third)) => of_three(first, second, third),
        _ => None,
    }
}
