use kom_base::{Chan, Comp, Dir, Event, Values};
use kom_lang::{Birth, Body, Effect, Effects, Place, Slots, Subs, Wires};
use kom_record::{Control, Entry, Item, Outcome, Places, Release, Releases};
use std::alloc::{AllocError, Global};

const ROOT: Comp = Comp(0);

fn values(alloc: Global, n: i64) -> Result<Values, AllocError> {
    let mut values = Values::new(alloc);
    values.push(n)?;
    Ok(values)
}

fn event(alloc: Global) -> Result<Event, AllocError> {
    let mut values = values(alloc, 1)?;
    values.push(-2)?;
    Ok(Event { kind: 0, values })
}

/// The root took Start.
pub fn started(_alloc: Global) -> Result<Entry, AllocError> {
    Ok(Entry::Took {
        w: 0,
        c: ROOT,
        item: Item::Control(Control::Start),
    })
}

fn body(alloc: Global) -> Result<Body, AllocError> {
    Ok(Body {
        kind: 0,
        vars: values(alloc, 7)?,
        subs: Subs::new(alloc),
        slots: Slots::new(alloc),
        wires: Wires::new(alloc),
        depth: 1,
        active: true,
        initialised: true,
    })
}

fn effects(alloc: Global) -> Result<Effects, AllocError> {
    let mut effects = Effects::new(alloc);
    effects.push(Effect::Trigger {
        port: 0,
        event: event(alloc)?,
    })?;
    effects.push(Effect::Create {
        slot: 0,
        kind: 0,
        birth: Birth::Args(values(alloc, 5)?),
    })?;
    effects.push(Effect::Plug {
        wire: 0,
        end: Dir::Plus,
        place: Place {
            slot: None,
            port: 0,
        },
    })?;
    Ok(effects)
}

/// The root ended its job, with an answer that reached nothing.
pub fn handled(alloc: Global) -> Result<Entry, AllocError> {
    let mut unreached = Places::new(alloc);
    unreached.push(3)?;
    let outcome = Outcome::Done {
        body: body(alloc)?,
        effects: effects(alloc)?,
    };
    Ok(Entry::Did {
        w: 0,
        c: ROOT,
        took: 0,
        outcome,
        to: None,
        unreached,
    })
}

/// The time moved.
pub fn moved(alloc: Global) -> Result<Entry, AllocError> {
    let mut released = Releases::new(alloc);
    released.push(Release {
        chan: Chan(0),
        event: event(alloc)?,
    })?;
    Ok(Entry::Moved {
        w: 0,
        t: 9,
        released,
    })
}

/// A job of the root faulted.
pub fn faulted(alloc: Global) -> Result<Entry, AllocError> {
    Ok(Entry::Did {
        w: 0,
        c: ROOT,
        took: 0,
        outcome: Outcome::Fault(107),
        to: None,
        unreached: Places::new(alloc),
    })
}
