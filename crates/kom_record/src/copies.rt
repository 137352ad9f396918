use crate::entry::Release;
use crate::item::{Control, Item};
use crate::plan::{Plan, Raise};
use kom_base::Copied;
use std::alloc::{AllocError, Global};

impl Copied for Control {
    fn copy(&self, alloc: Global) -> Result<Control, AllocError> {
        match self {
            Control::Init(values) => Ok(Control::Init(values.copy(alloc)?)),
            Control::Start => Ok(Control::Start),
            Control::Stop => Ok(Control::Stop),
            Control::Fault { slot, number } => Ok(Control::Fault {
                slot: *slot,
                number: *number,
            }),
            Control::Dump => Ok(Control::Dump),
            Control::Dumped { slot, values } => Ok(Control::Dumped {
                slot: *slot,
                values: values.copy(alloc)?,
            }),
        }
    }
}

impl Copied for Item {
    fn copy(&self, alloc: Global) -> Result<Item, AllocError> {
        match self {
            Item::Control(control) => Ok(Item::Control(control.copy(alloc)?)),
            Item::Arrival {
                chan,
                dir,
                no,
                port,
                side,
                event,
                back,
            } => Ok(Item::Arrival {
                chan: *chan,
                dir: *dir,
                no: *no,
                port: *port,
                side: *side,
                event: event.copy(alloc)?,
                back: *back,
            }),
        }
    }
}

impl Copied for Release {
    fn copy(&self, alloc: Global) -> Result<Release, AllocError> {
        Ok(Release {
            chan: self.chan,
            event: self.event.copy(alloc)?,
        })
    }
}

impl Copied for Raise {
    fn copy(&self, alloc: Global) -> Result<Raise, AllocError> {
        Ok(Raise {
            time: self.time,
            chan: self.chan,
            event: self.event.copy(alloc)?,
        })
    }
}

impl Copied for Plan {
    fn copy(&self, alloc: Global) -> Result<Plan, AllocError> {
        Ok(Plan {
            seed: self.seed,
            steps: self.steps,
            instants: self.instants,
            lo: self.lo,
            hi: self.hi,
            raises: self.raises.copy(alloc)?,
        })
    }
}
