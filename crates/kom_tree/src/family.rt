use kom_base::Comp;

/// Where an instance came from: its kind, and its parent with the slot there.
#[derive(Clone, Copy, Debug)]
pub struct Origin {
    pub kind: u16,
    pub parent: Option<(Comp, u8)>,
}

/// The chain of an instance's living children, the youngest first: `child` is its youngest, and
/// `sibling` is the next older living child of its parent.
#[derive(Clone, Copy, Debug)]
pub struct Links {
    pub child: Option<Comp>,
    pub sibling: Option<Comp>,
}

/// The instances by number.
#[derive(Drop)]
pub struct Family {
    pub origins: Vec<Origin>,
    pub links: Vec<Links>,
}
