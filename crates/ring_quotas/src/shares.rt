//! What of a connection falls to a squeue: how many of its feeds, and how often it leaves or comes there.

ghost use Rattle.std.specs.Prelude.{◌≡◌, ◌-◌, ◌/◌, ◌<◌, ◌≤◌, ◌==◌, ◌||◌, if◌then◌else◌};
ghost use Rattle.conn_classifier.specs.Limits.{most_items};
ghost use Rattle.histories.specs.Homes.{times_leaving};
ghost use Rattle.ring_quotas.specs.Limits.{most_squeues};
ghost use Rattle.ring_quotas.specs.Quotas.{feeds_at, times_coming};

use histories::Homes;

/// How often a connection with so many feeds moves.
fn moves(homes: Homes, items: u32) -> u32
    ensures { result ≡ (if (homes.spread == 0) || (homes.squeues == 1) then 0 else (items - 1) / homes.spread) }
{
    if homes.spread == 0 || homes.squeues == 1 {
        0
    } else {
        items.saturating_sub(1) / homes.spread
    }
}

/// How often connection `c`, with so many feeds, leaves squeue `q`.
pub fn leaving(homes: Homes, c: u32, items: u32, q: u32) -> u32
    requires squeue { q < homes.squeues }
    requires few { homes.squeues ≤ most_squeues }
    requires items { (0 < items) × (items ≤ most_items) }
    ensures value { result ≡ times_leaving homes.squeues homes.spread q c items }
    ensures most { result ≤ items }
{
    let away = (q + homes.squeues - c % homes.squeues) % homes.squeues;
    (moves(homes, items) + (homes.squeues - 1 - away)) / homes.squeues
}

/// How often it comes to squeue `q`.
pub fn coming(homes: Homes, c: u32, items: u32, q: u32) -> u32
    requires squeue { q < homes.squeues }
    requires few { homes.squeues ≤ most_squeues }
    requires items { (0 < items) × (items ≤ most_items) }
    ensures value { result ≡ times_coming homes.squeues homes.spread q c items }
    ensures most { result ≤ items }
{
    leaving(homes, c, items, (q + homes.squeues - 1) % homes.squeues)
}

/// How many of its feeds are at home at squeue `q`.
pub fn feeds(homes: Homes, c: u32, items: u32, q: u32) -> u32
    requires squeue { q < homes.squeues }
    requires few { homes.squeues ≤ most_squeues }
    requires items { (0 < items) × (items ≤ most_items) }
    ensures value { result ≡ feeds_at homes.squeues homes.spread q c items }
    ensures most { result ≤ items }
{
    let moves = moves(homes, items);
    let last = if (c % homes.squeues + moves % homes.squeues) % homes.squeues == q {
        items - moves * homes.spread
    } else {
        0
    };
    leaving(homes, c, items, q) * homes.spread + last
}
