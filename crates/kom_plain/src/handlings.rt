ghost use Rattle.std.specs.Prelude.{◌≡◌, not, []};
ghost use Rattle.kom_rules.specs.Names.{first_place, at_if as at_if_so};
ghost use Rattle.kom_rules.specs.Walks.{of_statements};
ghost use Rattle.kom_rules.specs.Handling.{no_state, no_event, no_question, no_fault, large_fault, is_event, is_dumped, is_fault};

use kom_system::{ComponentPart, OnPart, Parts, Spot, StmtPart};
use kom_walks::{OfHandling, OfNames, at_if, first_in_expressions, first_of_statements};

/// The greatest number of `fail`.
const MAX_FAULT: i64 = 899;

fn is_event(on: &OnPart) -> bool
    ensures { result ≡ is_event on.now }
{
    matches!(on, OnPart::Event { .. })
}

fn is_dumped(on: &OnPart) -> bool
    ensures { result ≡ is_dumped on.now }
{
    matches!(on, OnPart::Dumped { .. })
}

fn is_fault(on: &OnPart) -> bool
    ensures { result ≡ is_fault on.now }
{
    matches!(on, OnPart::Fault { .. })
}

#[derive(Drop)]
struct State<'a> {
    parts: &'a Parts,
}

impl OfHandling for State<'_> {
    ghost says = { λ s. no_state s.parts.now };

    fn first_said(&self, _part: &ComponentPart, on: &OnPart, stmt: &StmtPart) -> Option<u32> {
        match stmt {
            StmtPart::CreateFromState { at, .. } => at_if(!is_dumped(on), *at),
            _ => None,
        }
    }
}

/// The first `create .. from state` outside a dumped handler, at the word `state`.
pub fn state_outside(parts: &Parts) -> Option<u32>
    ensures { result ≡ first_place (of_statements no_state parts.now) }
{
    first_of_statements(&State { parts }, parts)
}

#[derive(Drop)]
struct Question<'a> {
    parts: &'a Parts,
}

impl OfHandling for Question<'_> {
    ghost says = { λ s. no_question s.parts.now };

    fn first_said(&self, _part: &ComponentPart, on: &OnPart, stmt: &StmtPart) -> Option<u32> {
        match stmt {
            StmtPart::Answer { at, .. } => at_if(!is_event(on), *at),
            _ => None,
        }
    }
}

/// The first `answer` outside an event handler, at that word.
pub fn answered_outside(parts: &Parts) -> Option<u32>
    ensures { result ≡ first_place (of_statements no_question parts.now) }
{
    first_of_statements(&Question { parts }, parts)
}

#[derive(Drop)]
struct Fault<'a> {
    parts: &'a Parts,
}

impl OfHandling for Fault<'_> {
    ghost says = { λ s. no_fault s.parts.now };

    fn first_said(&self, _part: &ComponentPart, on: &OnPart, stmt: &StmtPart) -> Option<u32> {
        match stmt {
            StmtPart::Escalate { at } => at_if(!is_fault(on), *at),
            _ => None,
        }
    }
}

/// The first `escalate` outside a fault handler, at that word.
pub fn escalated_outside(parts: &Parts) -> Option<u32>
    ensures { result ≡ first_place (of_statements no_fault parts.now) }
{
    first_of_statements(&Fault { parts }, parts)
}

#[derive(Drop)]
struct FaultNumber<'a> {
    parts: &'a Parts,
}

impl OfHandling for FaultNumber<'_> {
    ghost says = { λ s. large_fault s.parts.now };

    fn first_said(&self, _part: &ComponentPart, _on: &OnPart, stmt: &StmtPart) -> Option<u32> {
        match stmt {
            StmtPart::Fail { number, at } => at_if(*number > MAX_FAULT, *at),
            _ => None,
        }
    }
}

/// The first `fail` with a number over 899, at the number.
pub fn fault_too_large(parts: &Parts) -> Option<u32>
    ensures { result ≡ first_place (of_statements large_fault parts.now) }
{
    first_of_statements(&FaultNumber { parts }, parts)
}

/// What says of each `it` that it stands outside an event handler.
#[derive(Drop)]
struct It {
    outside: bool,
}

impl OfNames for It {
    ghost name = { λ s x. [] };

    ghost it = { λ s a x. at_if_so s.outside a };

    fn first_of_name(&self, _spot: &Spot) -> Option<u32> {
        None
    }

    fn first_of_it(&self, at: u32, _attr: &Spot) -> Option<u32> {
        at_if(self.outside, at)
    }
}

#[derive(Drop)]
struct Event<'a> {
    parts: &'a Parts,
}

impl OfHandling for Event<'_> {
    ghost says = { λ s. no_event s.parts.now };

    fn first_said(&self, _part: &ComponentPart, on: &OnPart, stmt: &StmtPart) -> Option<u32> {
        let says = It {
            outside: !is_event(on),
        };
        first_in_expressions(&says, stmt)
    }
}

/// The first `it` outside an event handler.
pub fn it_outside(parts: &Parts) -> Option<u32>
    ensures { result ≡ first_place (of_statements no_event parts.now) }
{
    first_of_statements(&Event { parts }, parts)
}
