ghost use Rattle.std.specs.Prelude.{◌≡◌};
ghost use Rattle.kom_lang.specs.Values.{value, values};
ghost use Rattle.kom_values.specs.Answers.{Gives};

use kom_base::Values;
use kom_lang::{Body, Effect, Effects, Expr, Exprs};
use kom_system::System;
use kom_values::{Scope, Stop, evaluate, evaluate_all, fault};
use std::alloc::Global;

const MAX_EFFECTS: usize = 32;

/// A handling as it stands: the body and the effects so far, the names in scope, and how many
/// turns its loops have made.
#[derive(Drop)]
pub struct Handling {
    pub body: Body,
    pub scope: Scope,
    pub effects: Effects,
    pub turns: u32,
}

/// What a handling reads and never changes.
#[derive(Drop)]
pub struct Setting<'a> {
    pub alloc: Global,
    pub system: &'a System,

    /// The attributes of the event in hand; none where the item is no event.
    pub it: &'a Values,

    /// The variables that a dumped item carries; none where the item is another.
    pub state: &'a Values,
}

impl Handling {
    ghost use Rattle.kom_steps.specs.Handlings.{Takes, fault_before};

    /// The value of an expression at this moment, or the number of its fault. It takes no memory.
    pub fn value_of(&self, setting: &Setting<'_>, e: &Expr) -> Result<i64, u16>
        ensures { result ≡ value e.now (record { vars = self.now.body.vars; scope = self.now.scope; it = setting.now.it.now }) }
    {
        evaluate(e, &self.body.vars, &self.scope, setting.it)
    }

    /// The values of expressions at this moment, up to the first that faults.
    pub fn values_of(&self, setting: &Setting<'_>, es: &Exprs) -> Result<Values, Stop>
        ensures { Gives (values es.now (record { vars = self.now.body.vars; scope = self.now.scope; it = setting.now.it.now })) result }
    {
        evaluate_all(setting.alloc, es, &self.body.vars, &self.scope, setting.it)
    }

    /// Adds an effect. It is refused where the handling has 32 already, and else where its own
    /// checks failed with a fault. The body stays as it is.
    pub fn take_effect(&mut self, failed: Option<u16>, effect: Effect) -> Result<(), Stop>
        ensures takes { Takes (fault_before self.old failed) self.old effect self.new result }
        ensures turns { self.new.turns ≡ self.old.turns }
    {
        if self.effects.len() >= MAX_EFFECTS {
            return Err(Stop::Fault(fault::TOO_MANY_EFFECTS));
        }
        if let Some(number) = failed {
            return Err(Stop::Fault(number));
        }
        self.effects.push(effect)?;
        Ok(())
    }
}
