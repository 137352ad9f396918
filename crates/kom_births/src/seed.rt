use kom_base::Comp;
use kom_lang::Body;
use kom_record::Control;
use kom_wiring::Link;
use sqlite_items::Items;

/// What one instance is planted with: its place, its first body, the control item that waits for
/// it, if one does, and its channels in order of declaration.
#[derive(Debug, Drop)]
pub struct Seed {
    pub place: Option<(Comp, u8)>,
    pub body: Body,
    pub init: Option<Control>,
    pub links: Items<Link>,
}
