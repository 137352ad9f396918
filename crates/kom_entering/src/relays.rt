ghost use Rattle.std.specs.Prelude.{◌≡◌};
ghost use Rattle.std.specs.Option.{option_copied};
ghost use Rattle.kom_record.specs.Entries.{item_at};
ghost use Rattle.kom_record.specs.Offers.{relayed_back, relayed_from};

use kom_base::EntryNo;
use kom_record::{Back, Entry, Item, Record};

/// The item that the Took at a position took; `None` exactly where no Took is there.
pub fn taken_item(kept: &Record, took: u32) -> Option<&Item>
    ensures { option_copied result ≡ item_at kept.now.history took }
{
    match kept.at(took as usize) {
        Some(Entry::Took { item, .. }) => Some(item),
        Some(Entry::Did { .. }) => None,
        Some(Entry::Moved { .. }) => None,
        None => None,
    }
}

/// The Took by which the event of a number had come to the component that passed it on; `None`
/// where the event was not passed on.
fn relayed_took(kept: &Record, no: EntryNo) -> Option<u32>
    ensures { result ≡ relayed_from kept.now.history no }
{
    if no.place != 0 {
        return None;
    }
    match kept.at(no.position as usize) {
        Some(Entry::Did { took, .. }) => match taken_item(kept, *took) {
            Some(Item::Arrival { .. }) => Some(*took),
            Some(Item::Control(_)) => None,
            None => None,
        },
        Some(Entry::Took { .. }) => None,
        Some(Entry::Moved { .. }) => None,
        None => None,
    }
}

/// How an arrived event goes on when it is passed on after the record.
pub fn passed_on(kept: &Record, back: Back) -> Back
    ensures { result ≡ relayed_back kept.now.history back }
{
    match back {
        Back::Plain => Back::Plain,
        Back::Home => Back::Home,
        Back::To(s) => match taken_item(kept, s) {
            Some(Item::Arrival { no, .. }) => match relayed_took(kept, *no) {
                Some(took) => Back::To(took),
                None => Back::Home,
            },
            Some(Item::Control(_)) => Back::Home,
            None => Back::Home,
        },
    }
}
