ghost use Rattle.std.specs.Prelude.{◌≡◌, ℕ, ◌<◌, ◌≤◌, ◌+◌, ◌-◌, ◌==◌, if◌then◌else◌, [], ◌∷◌, ◌++◌, length, OnOk, IsSome, Some, None, vec_len, vec_capacity};
ghost use Rattle.std.specs.Option.{option_copied, option_map};
ghost use Rattle.kom_lang.specs.declared.body.Body.{Body};
ghost use Rattle.kom_state.specs.Shelves.{body_at};
ghost use Rattle.kom_record.specs.Reaction.{passive};

use kom_base::Comp;
use kom_lang::Body;
use std::alloc::{AllocError, Global};
use std::marker::Model;

/// The bodies of the living instances, by number.
///
/// Contracts see for each instance its body, which is none where it has ended, and for how many
/// more there is room.
#[derive(Drop)]
pub struct Bodies {
    rows: Vec<Option<Body>>,
}

impl Model for Bodies {
    ghost use Rattle.kom_state.specs.Shelves.{Shelf};

    ghost Value = { Shelf };

    ghost use Rattle.std.specs.Prelude.{◌-◌, vec_len, vec_capacity};

    ghost view = { λ b. record { bodies = b.rows.items; spare = vec_capacity b.rows - vec_len b.rows } };
}

impl Bodies {
    /// No body. It takes no memory.
    pub fn new(alloc: Global) -> Bodies
        ensures { result.bodies ≡ [] }
    {
        Bodies {
            rows: Vec::new(alloc),
        }
    }

    /// Makes room for `n` more bodies. On want of memory there is no less room than before.
    pub fn reserve(&mut self, n: usize) -> Result<(), AllocError>
        ensures same { self.new.bodies ≡ self.old.bodies }
        ensures ok { OnOk result (n ≤ self.new.spare) }
        ensures not_less { self.old.spare ≤ self.new.spare }
    {
        self.rows.reserve(n)
    }

    /// Adds the body of the next instance. It takes no memory.
    pub fn add(&mut self, body: Body)
        requires { 0 < self.old.spare }
        ensures bodies { self.new.bodies ≡ self.old.bodies ++ Some body ∷ [] }
        ensures spare { self.old.spare ≤ self.new.spare + 1 }
    {
        put(&mut self.rows, Some(body));
    }

    /// The body of an instance; `None` exactly where it has ended or was not made.
    pub fn get(&self, c: Comp) -> Option<&Body>
        ensures { option_copied result ≡ body_at self.now.bodies c }
    {
        match self.rows.get(c.0 as usize) {
            Some(Some(body)) => Some(body),
            _ => None,
        }
    }

    /// Gives an instance another body, or none. It takes no memory.
    pub fn set(&mut self, c: Comp, body: Option<Body>)
        requires { c < length self.old.bodies }
        ensures each { (d : ℕ) → body_at self.new.bodies d ≡ (if d == c then body else body_at self.old.bodies d) }
        ensures long { length self.new.bodies ≡ length self.old.bodies }
        ensures spare { self.new.spare ≡ self.old.spare }
    {
        self.rows[c.0 as usize] = body;
    }

    /// Makes the body of an instance passive. It takes no memory.
    pub fn rest(&mut self, c: Comp)
        requires { c < length self.old.bodies }
        ensures each { (d : ℕ) → body_at self.new.bodies d ≡ (if d == c then option_map passive (body_at self.old.bodies d) else body_at self.old.bodies d) }
        ensures long { length self.new.bodies ≡ length self.old.bodies }
        ensures spare { self.new.spare ≡ self.old.spare }
    {
        let row = &mut self.rows[c.0 as usize];
        make_passive(row);
    }
}

/// Makes a body passive, if there is one.
fn make_passive(row: &mut Option<Body>)
    ensures { row.new ≡ option_map passive row.old }
{
    if let Some(body) = row {
        body.active = false;
    }
}

/// Adds at the end of a list that has room.
fn put(rows: &mut Vec<Option<Body>>, row: Option<Body>)
    requires { vec_len rows.old < vec_capacity rows.old }
    ensures items { rows.new.items ≡ rows.old.items ++ row ∷ [] }
    ensures room { vec_capacity rows.old ≤ vec_capacity rows.new }
{
    let _ = rows.push(row);
}
